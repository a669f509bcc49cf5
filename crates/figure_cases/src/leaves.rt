//! Leaves as words of a line.
ghost use Rattle.std.specs.Prelude.{◌≤◌, ℕ, All, IfOk, IfSome, length};
ghost use Rattle.proof_tree.specs.Tree.{IsLeaf, IsNode};

use bound_certificate::{MOST_DATES, read_cert};
use figure_sheets::Unread;
use offer_book::Book;
use proof_tree::{Leaf, PRICE_SCALE, Side, SumWeight, TreeNode};
use std::alloc::{AllocError, Global};

// The text of a certificate of one leaf alone.
fn text_of(alloc: Global, words: &[&str]) -> Result<String, AllocError> {
    let mut text = String::from_str(
        alloc,
        "escrow-certificate 1\nportfolio none\ngap 0\nnodes 1\nl",
    )?;
    for word in words {
        text.push_str(" ")?;
        text.push_str(word)?;
    }
    text.push_str("\nend\n")?;
    Ok(text)
}

// The leaf of nodes that are a leaf alone.
fn only_leaf(nodes: &[TreeNode]) -> Option<&Leaf>
    ensures { (dates : ℕ) → All (IsNode dates) nodes.now → IfSome result (λ leaf. IsLeaf dates leaf.now) }
{
    match nodes {
        [TreeNode::Closed(leaf)] => Some(leaf),
        _ => None,
    }
}

/// The leaf of the words that a certificate's line has of it, for so many need dates: whether the cost counts, the multiplier of the
/// limit, and the prices.
///
/// # Errors
///
/// `Argument` where they are no leaf, and `NoMemory` where memory ran out.
pub fn leaf_of(alloc: Global, words: &[&str], dates: u16) -> Result<Leaf, Unread>
    requires { dates ≤ MOST_DATES }
    ensures { IfOk result (IsLeaf dates) }
{
    let text = text_of(alloc, words)?;
    let Ok(cert) = read_cert(alloc, text.as_bytes(), dates) else {
        return Err(Unread::Argument);
    };
    let Some(leaf) = only_leaf(cert.nodes.as_slice()) else {
        return Err(Unread::Argument);
    };
    match leaf.copy(alloc) {
        Ok(leaf) => Ok(leaf),
        Err(_) => Err(Unread::NoMemory),
    }
}

/// The leaf of words for the need dates of a book.
///
/// # Errors
///
/// Those of [`leaf_of`].
pub fn own_leaf(alloc: Global, book: &Book, words: &[&str]) -> Result<Leaf, Unread>
    ensures { IfOk result (IsLeaf (length book.now.needs)) }
{
    let dates = book.need_count();
    if usize::from(dates) > MOST_DATES {
        return Err(Unread::Argument);
    }
    leaf_of(alloc, words, dates)
}

// The word of a weight of the cost: 1 for the whole, 0 for none, and else the fraction.
fn weight_text(alloc: Global, rho: u64) -> Result<String, AllocError> {
    match rho {
        0 => String::from_str(alloc, "0"),
        PRICE_SCALE => String::from_str(alloc, "1"),
        _ => format!(in alloc; "{rho}/{PRICE_SCALE}"),
    }
}

// Adds the weights of sums, where there are any: the word `t`, and need date, side and weight of each.
fn push_weights(alloc: Global, text: &mut String, weights: &[SumWeight]) -> Result<(), AllocError> {
    if weights.is_empty() {
        return Ok(());
    }
    text.push_str(" t")?;
    for own in weights {
        let date = u32::from(own.sum) + 1;
        let side = match own.side {
            Side::AtMost => 0,
            Side::AtLeast => 1,
        };
        let words = format!(in alloc; " {date} {side} {}", own.weight)?;
        text.push_str(words.as_str())?;
    }
    Ok(())
}

/// The words of a leaf: the weight of the cost, as 1, 0 or a fraction, the multiplier of the limit, the prices, and as the tail of its line the
/// weights of sums.
///
/// # Errors
///
/// Where memory ran out.
pub fn leaf_text(alloc: Global, leaf: &Leaf) -> Result<String, AllocError> {
    let mut text = weight_text(alloc, leaf.rho)?;
    let multiplier = format!(in alloc; " {}", leaf.mu)?;
    text.push_str(multiplier.as_str())?;
    for price in leaf.prices.as_slice() {
        let price = format!(in alloc; " {price}")?;
        text.push_str(price.as_str())?;
    }
    push_weights(alloc, &mut text, leaf.weights.as_slice())?;
    Ok(text)
}

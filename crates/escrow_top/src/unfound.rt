//! What is said where a search found no portfolio.

ghost use Rattle.std.specs.Prelude.{◌≡◌, ◌++◌, IfOk, IfSome, OnOk, option_map};
ghost use Rattle.offer_book.specs.Portfolio.{IsPermitted};
ghost use Rattle.escrow_top.specs.Structure.{best_line, budget_spent as budget_spent_answer, infeasible as infeasible_on, nodes_line, none_within_text};

use branch_search::Spent;
use cash_table::{Plan, cost};
use certificate_answers::{Answer, Status};
use escrow_desk::NoMemory;
use escrow_units::{Day, print_cents, print_day};
use offer_book::Book;
use proof_tree::Nodes;
use std::alloc::Global;
use verification_report::push_line;

/// The answer that no permitted portfolio meets the needs, which shows first on a day.
pub(crate) fn infeasible(alloc: Global, day: Day) -> Result<Answer, NoMemory>
    ensures answer { IfOk result (λ answer. answer ≡ infeasible_on day) }
    ensures status { IfOk result (λ answer. answer.status ≡ Status.Infeasible) }
{
    let mut text = Vec::new(alloc);
    push_line(&mut text, b"infeasible ", print_day(day).as_bytes())?;
    Ok(Answer::new(Status::Infeasible, text))
}

/// Adds how many nodes a tree has.
pub(crate) fn push_nodes(alloc: Global, text: &mut Vec<u8>, nodes: &Nodes) -> Result<(), NoMemory>
    ensures { OnOk result (text.new.items ≡ text.old.items ++ nodes_line nodes.now) }
{
    push_line(
        text,
        b"nodes ",
        nodes.as_slice().len().to_string(alloc)?.as_bytes(),
    )
}

/// What is said of a tree which shows that there is no rival.
pub(crate) fn none_within(alloc: Global, nodes: &Nodes) -> Result<Vec<u8>, NoMemory>
    ensures { IfOk result (λ text. text.items ≡ none_within_text nodes.now) }
{
    let mut text = Vec::new(alloc);
    push_line(&mut text, b"none within yield", b"")?;
    push_nodes(alloc, &mut text, nodes)?;
    Ok(text)
}

// Adds what the best plan costs, if there is one.
fn push_best(text: &mut Vec<u8>, book: &Book, best: Option<&Plan>) -> Result<(), NoMemory>
    requires { IfSome best (λ plan. IsPermitted book.now plan.now) }
    ensures { OnOk result (text.new.items ≡ text.old.items ++ best_line book.now (option_map (λ plan. plan.now) best.entry)) }
{
    match best {
        Some(plan) => push_line(text, b"best ", print_cents(cost(book, plan)).as_bytes()),
        None => push_line(text, b"best ", b"none"),
    }
}

/// The answer that the budget is spent: the nodes of the tree, the bound that it shows, and what the best plan costs.
pub(crate) fn budget_spent(alloc: Global, book: &Book, spent: &Spent) -> Result<Answer, NoMemory>
    requires { IfSome spent.now.best (IsPermitted book.now) }
    ensures answer { IfOk result (λ answer. answer ≡ budget_spent_answer book.now spent.now) }
    ensures status { IfOk result (λ answer. answer.status ≡ Status.BudgetSpent) }
{
    let mut text = Vec::new(alloc);
    push_line(&mut text, b"budget spent", b"")?;
    push_nodes(alloc, &mut text, &spent.tree)?;
    push_line(&mut text, b"bound ", print_cents(spent.bound).as_bytes())?;
    push_best(&mut text, book, spent.best.as_ref())?;
    Ok(Answer::new(Status::BudgetSpent, text))
}

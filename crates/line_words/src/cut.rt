//! Bytes up to a mark.
ghost use Rattle.std.specs.Prelude.{◌≡◌, ◌==◌, ◌<◌, ◌∷◌, ℕ, IfSome, length, position};
ghost use Rattle.std.specs.List.{slice_split};
ghost use Rattle.line_words.specs.Words.{is_feed, parts_behind};

use memchr::memchr;

/// Bytes before the first of a mark, and those behind it, where it stands there.
#[derive(Clone, Copy, Debug)]
pub struct Cut<'a> {
    /// The bytes before it, or all where it doesn't stand there.
    pub front: &'a [u8],
    /// The bytes behind it.
    pub rest: Option<&'a [u8]>,
}

// Where a byte first stands.
fn place_of(bytes: &[u8], mark: u8) -> Option<usize>
    ensures place { result ≡ position (λ byte. byte == mark) bytes.now }
    ensures bound { IfSome result (λ place. place < length bytes.now) }
{
    bytes.iter().position(|byte| *byte == mark)
}

// Where the first line feed stands. Lines are long, so this search goes over many bytes at once.
fn feed_place(bytes: &[u8]) -> Option<usize>
    ensures place { result ≡ position is_feed bytes.now }
    ensures bound { IfSome result (λ place. place < length bytes.now) }
{
    memchr(b'\n', bytes)
}

// Cuts bytes at a place, where there is one.
fn cut_by(bytes: &[u8], place: Option<usize>) -> Cut<'_>
    requires { IfSome place (λ place. place < length bytes.now) }
    ensures { (mark : ℕ) → place ≡ position (λ byte. byte == mark) bytes.now → slice_split (λ byte. byte == mark) bytes.now ≡ result.front.now ∷ parts_behind mark result.rest }
{
    match place {
        Some(place) => Cut {
            front: &bytes[..place],
            rest: Some(&bytes[place + 1..]),
        },
        None => Cut {
            front: bytes,
            rest: None,
        },
    }
}

/// Cuts bytes at the first of a mark.
pub fn cut_at(bytes: &[u8], mark: u8) -> Cut<'_>
    ensures { slice_split (λ byte. byte == mark) bytes.now ≡ result.front.now ∷ parts_behind mark result.rest }
{
    cut_by(bytes, place_of(bytes, mark))
}

/// Cuts bytes at the first line feed.
pub fn cut_line(bytes: &[u8]) -> Cut<'_>
    ensures { slice_split (λ byte. byte == 10) bytes.now ≡ result.front.now ∷ parts_behind 10 result.rest }
{
    cut_by(bytes, feed_place(bytes))
}

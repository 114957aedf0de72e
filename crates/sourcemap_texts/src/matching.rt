//! Which code a path of an engine names: below which prefix of it the path of a file begins.
ghost use Rattle.std.specs.Prelude.{◌≡◌, ◌<◌, ℕ, slice_get, string_bytes, length, MatchOption};
ghost use Rattle.std.proofs.Math.Dec.{eqb};
ghost use Rattle.std.specs.List.{starts_with, ends_with};
ghost use Rattle.sourcemap_texts.specs.Words.{below_length, IsLongest, ends_in_folder, tells_apart};
ghost use Rattle.sourcemap_texts.specs.Words.{has_slash, determines, chosen, lent_item};

/// A prefix that the user names, with a slash at its end, and the folder that has the files below it.
#[derive(Drop)]
pub struct Prefix {
    pub left: String,
    pub folder: String,
}

/// Whether a path begins with a text.
fn begins_with(path: &str, front: &str) -> bool
    ensures { result ≡ starts_with eqb path.now front.now }
{
    path.starts_with(front)
}

/// The length of a prefix, if there is something of a path below it, else 0.
fn below_length(path: &str, prefix: &Prefix) -> usize
    ensures { result ≡ below_length path.now (string_bytes prefix.now.left) }
{
    let left = prefix.left.as_str();
    let is_below = left.len() < path.len() && begins_with(path, left);
    if is_below { left.len() } else { 0 }
}

/// The index of the longest of some prefixes that a path is below, the first of those that are equal. None if it is below none.
pub fn longest_prefix(prefixes: &[Prefix], path: &str) -> Option<usize>
    ensures { MatchOption result
        ((p : Prefix) → (i : ℕ) → slice_get prefixes.now i ≡ Some p
        → below_length path.now (string_bytes p.left) ≡ 0)
        (λ i. IsLongest path.now prefixes.now i) }
{
    let mut longest = None;
    let mut most = 0;
    for (i, prefix) in prefixes.iter().enumerate() {
        let length = below_length(path, prefix);
        if length > most {
            longest = Some(i);
            most = length;
        }
    }
    longest
}

/// A prefix of a path whose rest is in the folder, and the rest of an earlier path that is in the folder below the same prefix.
#[derive(Clone, Copy)]
pub struct Candidate<'p> {
    pub prefix: &'p str,
    pub rest: &'p str,
    pub earlier: Option<&'p str>,
}

/// Which of some candidates, the shortest prefix first, is that of the input.
#[derive(Clone, Copy)]
pub enum Choice {
    /// The one at this index.
    Determined(usize),
    /// The first one may be it; too little is known.
    MaybeFirst,
    /// There are no candidates.
    Nothing,
}

/// Whether a path ends with a text.
fn ends_with(path: &str, end: &str) -> bool
    ensures { result ≡ ends_with eqb path.now end.now }
{
    path.ends_with(end)
}

/// Whether a prefix ends in the folder whose name is between slashes in `own`; `own` is empty if the folder has no name.
fn ends_in_folder(own: &str, prefix: &str) -> bool
    ensures { result ≡ ends_in_folder own.now prefix.now }
{
    match own.strip_prefix('/') {
        Some(bare) => prefix == bare || ends_with(prefix, own),
        None => false,
    }
}

/// Whether a path has a part behind a folder.
pub(crate) fn has_slash(path: &str) -> bool
    ensures { result ≡ has_slash path.now }
{
    path.as_bytes().iter().any(|byte| *byte == b'/')
}

/// Whether two paths below one prefix are two files, at least one of the two in a folder.
fn tells_apart(earlier: Option<&str>, rest: &str) -> bool
    ensures { result ≡ tells_apart (lent_item earlier.entry) rest.now }
{
    match earlier {
        Some(earlier) => earlier != rest && (has_slash(earlier) || has_slash(rest)),
        None => false,
    }
}

/// Whether a candidate determines the prefix of an input.
fn determines(own: &str, is_remote: bool, candidate: &Candidate<'_>) -> bool
    ensures { result ≡ determines own.now is_remote candidate.now }
{
    !is_remote && ends_in_folder(own, candidate.prefix)
        || tells_apart(candidate.earlier, candidate.rest)
}

/// Which candidate is the prefix of the input: the first one that determines it. `own` is the folder's own name between slashes, or empty;
/// `is_remote` means that the path is the URL of a host, whose folders are not named as on this machine.
pub fn choose(own: &str, is_remote: bool, candidates: &[Candidate<'_>]) -> Choice
    ensures { result ≡ chosen own.now is_remote candidates.now }
{
    for (i, candidate) in candidates.iter().enumerate() {
        if determines(own, is_remote, candidate) {
            return Choice::Determined(i);
        }
    }
    if candidates.is_empty() {
        Choice::Nothing
    } else {
        Choice::MaybeFirst
    }
}

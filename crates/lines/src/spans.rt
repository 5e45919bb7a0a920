// Where the words of a line stand: "Words of a line stand apart by spaces or tabs."
ghost use Rattle.std.specs.Prelude.{Bool, ℕ, ◌≡◌, ◌≤◌, length};
ghost use Rattle.lines.specs.Spans.{blank, past_run, word_after};

// The bytes from index `from` to before index `to`.
#[derive(Clone, Copy)]
pub struct Span {
    pub from: usize,
    pub to: usize,
}

fn is_blank(b: u8) -> bool
    ensures { result ≡ blank b }
{
    matches!(b, b' ' | b'\t')
}

// Where the run of bytes that `passes` takes ends: it stands at `at`, and may be empty.
fn past_run<F: Fn(u8) -> bool>(passes: F, line: &[u8], at: usize) -> usize
    requires { F.IsAlwaysCallable passes }
    ensures { (p : ℕ → Bool) → ((b : ℕ) (r : Bool) → F.post passes b r → r ≡ p b) → result ≡ past_run p line.now at }
{
    let start = at.min(line.len());
    let rest = &line[start..];
    start + rest.iter().position(|&b| !passes(b)).unwrap_or(rest.len())
}

// The first word that begins at or after `at`; empty, at the line's end, where there is none.
pub fn word_after(line: &[u8], at: usize) -> Span
    ensures value { result ≡ word_after line.now at }
    ensures inside { (result.from ≤ result.to) × (result.to ≤ length line.now) }
{
    let from = past_run(is_blank, line, at);
    let to = past_run(|b| !is_blank(b), line, from);
    Span { from, to }
}

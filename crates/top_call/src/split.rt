//! The two texts of an input: the job's, and behind a line `faults` the script's.

ghost use Rattle.std.specs.Prelude.{◌≡◌, ◌+◌, ◌<◌, ◌≤◌, ◌==◌, length, drop, IfSome};
ghost use Rattle.std.specs.List.{position};
ghost use Rattle.top_call.specs.Split.{faults_at, job_text, script_text};

/// The job's text and the script's. The first line that is exactly `faults` ends the job's text; it has no part in
/// either. Where there is none, all is job text.
pub(crate) fn split(input: &[u8]) -> (&[u8], &[u8])
    ensures job { result.0.now ≡ job_text input.now }
    ensures script { result.1.now ≡ script_text input.now }
    ensures short_job { length result.0.now ≤ length input.now }
    ensures short_script { length result.1.now ≤ length input.now }
{
    match faults_at(input) {
        None => (input, b"".as_slice()),
        Some(at) => (&input[..at], behind(input, at + 7)),
    }
}

// Where the first line that is exactly `faults` begins.
fn faults_at(input: &[u8]) -> Option<usize>
    ensures exact { result ≡ faults_at input.now }
    ensures within { IfSome result (λ at. at + 6 ≤ length input.now) }
{
    let mut at = 0;
    let mut rest = input;
    while let Some(end) = line_end(rest) {
        if &rest[..end] == b"faults".as_slice() {
            return Some(at);
        }
        at += end + 1;
        rest = rest.split_at(end + 1).1;
    }
    if rest == b"faults".as_slice() {
        Some(at)
    } else {
        None
    }
}

// Where the first LF stands.
fn line_end(text: &[u8]) -> Option<usize>
    ensures exact { result ≡ position (λ b. b == 10) text.now }
    ensures within { IfSome result (λ at. at < length text.now) }
{
    text.iter().position(|b| *b == b'\n')
}

// What stands from a place on.
fn behind(input: &[u8], at: usize) -> &[u8]
    ensures { result.now ≡ drop at input.now }
{
    if at < input.len() {
        &input[at..]
    } else {
        b"".as_slice()
    }
}

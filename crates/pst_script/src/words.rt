//! The words of a line.
ghost use Rattle.std.specs.Prelude.{◌≡◌, ◌<◌, ◌≤◌, ◌∷◌, [], length, not, MatchOption, IfSome};
ghost use Rattle.std.specs.List.{list_all, prefix_len};
ghost use Rattle.pst_script.specs.Words.{is_blank, words, is_separator};

/// A blank: a space, a tab or a carriage return.
fn is_blank(byte: u8) -> bool
    ensures { result ≡ is_blank byte }
{
    byte == b' ' || byte == b'\t' || byte == b'\r'
}

/// How many blanks the line begins with.
fn count_blanks(line: &[u8]) -> usize
    ensures count { result ≡ prefix_len is_blank line.now }
    ensures within { result ≤ length line.now }
{
    line.iter().take_while(|byte| is_blank(**byte)).count()
}

/// How many bytes stand before the first blank.
fn count_to_blank(line: &[u8]) -> usize
    ensures count { result ≡ prefix_len (λ b. not (is_blank b)) line.now }
    ensures within { result ≤ length line.now }
{
    line.iter().take_while(|byte| !is_blank(**byte)).count()
}

/// The line without the blanks that it begins with.
fn skip_blanks(line: &[u8]) -> &[u8]
    ensures words { words result.now ≡ words line.now }
    ensures at_word { prefix_len is_blank result.now ≡ 0 }
    ensures shorter { length result.now ≤ length line.now }
{
    &line[count_blanks(line)..]
}

/// The first word of a line, and what stands behind it. None where the line has no word.
pub fn split_word(line: &[u8]) -> Option<(&[u8], &[u8])>
    ensures words { MatchOption result (words line.now ≡ []) (λ split. words line.now ≡ split.0.now ∷ words split.1.now) }
    ensures some { IfSome result (λ split. 0 < length split.0.now) }
    ensures shorter { IfSome result (λ split. length split.1.now < length line.now) }
{
    let rest = skip_blanks(line);
    if rest.is_empty() {
        return None;
    }
    Some(rest.split_at(count_to_blank(rest)))
}

fn are_blanks(bytes: &[u8]) -> bool
    ensures { result ≡ list_all is_blank bytes.now }
{
    bytes.iter().all(|byte| is_blank(*byte))
}

/// Whether the line separates the program from its script: `%%`, and nothing behind it but blanks.
pub fn is_separator(line: &[u8]) -> bool
    ensures { result ≡ is_separator line.now }
{
    line.starts_with(b"%%") && are_blanks(&line[2..])
}

//! How far a token reaches.
ghost use Rattle.std.specs.Prelude.{◌≡◌, ◌≤◌, ◌+◌, ℕ, true, false, length, drop, zip};
ghost use Rattle.std.specs.Char.{is_ascii_digit};
ghost use Rattle.std.specs.List.{prefix_len, list_all};
ghost use Rattle.acc_token.specs.Tokens.{is_blank as is_blank_of, begins_word as begins_word_of, continues_word as continues_word_of, mark_len as mark_len_of, number_of as number_of_digits, content, is_closed, is_plain as is_plain_byte, says_plain, quoted_len, spells as spells_of, first_passes, says_word, says_mark, token_of};

/// How many blanks the text begins with.
#[inline(always)]
pub fn blanks(text: &[u8]) -> usize
    ensures count { result ≡ prefix_len is_blank_of text.now }
    ensures within { result ≤ length text.now }
{
    text.iter().take_while(|byte| is_blank(**byte)).count()
}

#[inline(always)]
fn is_blank(byte: u8) -> bool
    ensures { result ≡ is_blank_of byte }
{
    byte == b' ' || byte == b'\t' || byte == b'\n' || byte == b'\r'
}

/// Whether a word may begin with the byte.
#[inline(always)]
pub fn begins_word(byte: u8) -> bool
    ensures { result ≡ begins_word_of byte }
{
    byte.is_ascii_alphabetic() || byte == b'_'
}

#[inline(always)]
fn continues_word(byte: u8) -> bool
    ensures { result ≡ continues_word_of byte }
{
    begins_word(byte) || byte.is_ascii_digit()
}

/// How many bytes of a word the text begins with.
pub fn word_len(text: &[u8]) -> usize
    ensures count { result ≡ prefix_len continues_word_of text.now }
    ensures within { result ≤ length text.now }
{
    text.iter()
        .take_while(|byte| continues_word(**byte))
        .count()
}

// Whether the byte is this one of a word in small letters.
#[inline(always)]
fn spells(byte: u8, small: u8) -> bool
    ensures { result ≡ spells_of byte small }
{
    let letter = byte | 32;
    if letter.is_ascii_lowercase() {
        letter == small
    } else {
        byte == small && (byte == b'_' || byte.is_ascii_digit())
    }
}

// Whether each byte is that of the word at its place, up to where one of the two ends.
#[inline(always)]
fn begins_alike(text: &[u8], word: &[u8]) -> bool
    ensures { result ≡ list_all (λ pair. spells_of pair.0 pair.1) (zip text.now word.now) }
{
    text.iter()
        .zip(word)
        .all(|(byte, small)| spells(*byte, *small))
}

// Whether a word may begin with the text.
#[inline(always)]
fn begins(text: &[u8]) -> bool
    ensures { result ≡ first_passes begins_word_of text.now }
{
    match text {
        [byte, ..] => begins_word(*byte),
        [] => false,
    }
}

// Whether a word that reaches up to the text goes on in it.
#[inline(always)]
fn goes_on(text: &[u8]) -> bool
    ensures { result ≡ first_passes continues_word_of text.now }
{
    match text {
        [byte, ..] => continues_word(*byte),
        [] => false,
    }
}

/// What follows so many bytes.
#[inline(always)]
pub fn without_front(text: &[u8], len: usize) -> &[u8]
    requires { len ≤ length text.now }
    ensures { result.now ≡ drop len text.now }
{
    &text[len..]
}

/// Whether the text begins with this word, which is given in small letters, and the word ends there.
#[tactic(auto, using(crate::proofs::Words::word_tested))]
#[inline(always)]
pub fn is_word(text: &[u8], word: &[u8]) -> bool
    ensures { result ≡ says_word word.now (token_of text.now) }
{
    word.len() <= text.len()
        && begins_alike(text, word)
        && !goes_on(without_front(text, word.len()))
        && begins(text)
}

/// Whether the text begins with this mark.
#[tactic(auto, using(crate::proofs::Words::mark_in_front))]
#[inline(always)]
pub fn is_mark(text: &[u8], mark: &[u8]) -> bool
    ensures { result ≡ says_mark mark.now (token_of text.now) }
{
    let len = mark_len(text);
    len != 0 && &text[..len] == mark
}

/// How many digits the text begins with.
pub fn digits_len(text: &[u8]) -> usize
    ensures count { result ≡ prefix_len is_ascii_digit text.now }
    ensures within { result ≤ length text.now }
{
    text.iter().take_while(|byte| byte.is_ascii_digit()).count()
}

/// How many bytes the mark has that the text begins with, and 0 where it begins with none.
#[inline(always)]
pub fn mark_len(text: &[u8]) -> usize
    ensures count { result ≡ mark_len_of text.now }
    ensures within { result ≤ length text.now }
{
    match text {
        [b'!' | b'<' | b'>', b'=', ..] => 2,
        [
            b'=' | b'+' | b'-' | b'(' | b')' | b',' | b';' | b'.' | b'<' | b'>',
            ..
        ] => 1,
        _ => 0,
    }
}

/// The number that the digits write, where it fits 64 bits.
pub fn number_of(digits: &[u8]) -> Option<u64>
    requires { list_all is_ascii_digit digits.now ≡ true }
    ensures { result ≡ number_of_digits digits.now }
{
    let mut number = 0u64;
    for digit in digits {
        number = number
            .checked_mul(10)?
            .checked_add(u64::from(*digit - b'0'))?;
    }
    Some(number)
}

/// How far a text in quotes reaches, from behind its opening quote on.
#[derive(Clone, Copy)]
pub struct Extent {
    /// How many bytes it has, with its closing quote.
    pub reach: usize,
    /// How many bytes it says, with one for two quotes.
    pub len: usize,
    /// Whether it says no control character of ASCII.
    pub plain: bool,
    /// Whether the closing quote is there.
    pub closed: bool,
}

/// Where the text in quotes ends that begins in front of these bytes.
pub fn quoted_extent(text: &[u8]) -> Extent
    ensures reach { result.reach ≡ quoted_len false text.now }
    ensures within { result.reach ≤ length text.now }
    ensures len { result.len ≡ length (content false text.now) }
    ensures plain { result.plain ≡ says_plain text.now }
    ensures closed { result.closed ≡ is_closed false text.now }
{
    let mut len = 0;
    let mut plain = true;
    let mut waits = false;
    for (reach, byte) in text.iter().enumerate() {
        let quote = *byte == b'\'';
        if waits && !quote {
            return Extent {
                reach,
                len,
                plain,
                closed: true,
            };
        }
        if waits || !quote {
            len += 1;
            plain = plain && is_plain(*byte);
        }
        waits = quote && !waits;
    }
    Extent {
        reach: text.len(),
        len,
        plain,
        closed: waits,
    }
}

fn is_plain(byte: u8) -> bool
    ensures { result ≡ is_plain_byte byte }
{
    byte >= 32 && byte != 127
}

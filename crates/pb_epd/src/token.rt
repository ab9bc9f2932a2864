//! The tokens of an EPD line: words, quoted texts and ends, with spaces around them.

ghost use Rattle.std.specs.Prelude.{◌≡◌, ◌↔◌, ◌<◌, IsTrue, ◌≢◌, ◌++◌, ◌∷◌, List, ℕ, MatchOption};
ghost use Rattle.pb_epd.specs.Token.{IsWordByte, IsQuotedByte, Token, quoted, word};
ghost use Rattle.pb_epd.specs.Token.{Tokens, IsToken, IsBadAt};
ghost use Rattle.pb_epd.specs.Run.{IsRun};
ghost use Rattle.pb_board.specs.Fields.{space};
ghost use Rattle.pb_epd.specs.Lexeme.{IsOperandToken, token_of, Begins, IsNext};

/// Lines are long, so a byte is judged by one look-up: `y` if a word may have it.
static WORD_BYTES: [u8; 256] = *b"\
    nnnnnnnnnnnnnnnnnnnnnnnnnnnnnnnn\
    nynyyyyyyyyyyyyyyyyyyyyyyyynyyyy\
    yyyyyyyyyyyyyyyyyyyyyyyyyyyyyyyy\
    yyyyyyyyyyyyyyyyyyyyyyyyyyyyyyyn\
    nnnnnnnnnnnnnnnnnnnnnnnnnnnnnnnn\
    nnnnnnnnnnnnnnnnnnnnnnnnnnnnnnnn\
    nnnnnnnnnnnnnnnnnnnnnnnnnnnnnnnn\
    nnnnnnnnnnnnnnnnnnnnnnnnnnnnnnnn";

fn is_word_byte(byte: u8) -> bool
    ensures { IsTrue result ↔ IsWordByte byte }
{
    WORD_BYTES[byte as usize] == b'y'
}

fn is_quoted_byte(byte: u8) -> bool
    ensures { IsTrue result ↔ IsQuotedByte byte }
{
    (32..=126).contains(&byte) && byte != b'"'
}

pub(crate) fn space_run(text: &[u8]) -> usize
    ensures { IsRun (λ b. b ≡ space) text.now result }
{
    text.iter()
        .position(|byte| *byte != b' ')
        .unwrap_or(text.len())
}

pub(crate) fn word_run(text: &[u8]) -> usize
    ensures { IsRun IsWordByte text.now result }
{
    text.iter()
        .position(|byte| !is_word_byte(*byte))
        .unwrap_or(text.len())
}

pub(crate) fn quoted_run(text: &[u8]) -> usize
    ensures { IsRun IsQuotedByte text.now result }
{
    text.iter()
        .position(|byte| !is_quoted_byte(*byte))
        .unwrap_or(text.len())
}

pub(crate) const LONGEST: usize = 255;

#[derive(Clone, Copy)]
pub(crate) enum Lexeme<'a> {
    Word(&'a [u8]),
    Quoted(&'a [u8]),
    End,
}

#[derive(Clone, Copy)]
pub(crate) enum Next<'a> {
    Done,
    Found(Lexeme<'a>, &'a [u8]),
    /// After so many spaces.
    Bad(usize),
}

impl Lexeme<'_> {
    pub(crate) fn is_operand(&self) -> bool
        ensures { IsTrue result ↔ IsOperandToken (token_of self.now) }
    {
        !matches!(self, Lexeme::End)
    }
}

fn word_at(text: &[u8]) -> Option<(&[u8], &[u8])>
    ensures { MatchOption result ((bytes rest : List ℕ)
        → ¬ Begins text.now (word bytes) rest)
        (λ cut. Begins text.now (word cut.0.now) cut.1.now) }
{
    let length = word_run(text);
    if length == 0 || length > LONGEST {
        return None;
    }
    Some((&text[..length], &text[length..]))
}

fn quoted_at(text: &[u8]) -> Option<(&[u8], &[u8])>
    ensures { MatchOption result ((bytes rest : List ℕ) → IsToken (quoted bytes)
        → text.now ≢ bytes ++ 34 ∷ rest)
        (λ cut. IsToken (quoted cut.0.now) × (text.now ≡ cut.0.now ++ 34 ∷ cut.1.now)) }
{
    let length = quoted_run(text);
    if length > LONGEST || length == text.len() || text[length] != b'"' {
        return None;
    }
    Some((&text[..length], &text[length + 1..]))
}

fn token_at(text: &[u8]) -> Option<(Lexeme<'_>, &[u8])>
    ensures { MatchOption result ((t : Token) (rest : List ℕ) → ¬ Begins text.now t rest)
        (λ cut. Begins text.now (token_of cut.0) cut.1.now) }
{
    let (first, rest) = text.split_first()?;
    match *first {
        b';' => Some((Lexeme::End, rest)),
        b'"' => {
            let (quoted, rest) = quoted_at(rest)?;
            Some((Lexeme::Quoted(quoted), rest))
        }
        _ => {
            let (word, rest) = word_at(text)?;
            Some((Lexeme::Word(word), rest))
        }
    }
}

pub(crate) fn next_token<'a>(before: Lexeme<'_>, text: &'a [u8]) -> Next<'a>
    ensures { IsNext (token_of before.entry) text.now result }
{
    let spaces = space_run(text);
    if spaces == text.len() {
        return Next::Done;
    }
    let Some((token, rest)) = token_at(&text[spaces..]) else {
        return Next::Bad(spaces);
    };
    if spaces == 0 && before.is_operand() && token.is_operand() {
        return Next::Bad(spaces);
    }
    Next::Found(token, rest)
}

pub(crate) fn first_bad(text: &[u8]) -> Option<usize>
    ensures { MatchOption result ((ts : List Token) × Tokens ts text.now) (λ at.
        IsBadAt text.now at) }
{
    let mut before = Lexeme::End;
    let mut rest = text;
    loop {
        match next_token(before, rest) {
            Next::Done => return None,
            Next::Bad(spaces) => return Some(text.len() - rest.len() + spaces),
            Next::Found(token, after) => {
                before = token;
                rest = after;
            }
        }
    }
}

// The words of a text: the longest runs of bytes that are no blanks.
#![tactic(auto)]

ghost use Rattle.std.specs.Prelude.{◌≡◌, not, length};
ghost use Rattle.std.specs.List.{position};
ghost use Rattle.std.specs.Iterator.{YieldsFirstRef, item_count};
ghost use Rattle.text_words.specs.Words.{is_blank, text_words};

#[tactic(auto, unfolding(crate::specs::Words::is_blank))]
fn is_blank(c: u8) -> bool
    ensures { result ≡ is_blank c }
{
    matches!(c, b' ' | b'\t'..=b'\r')
}

// Where the first word starts. A function, as the next one: what a closure finds is known where it is the
// whole body, and not in `next`.
fn first_letter(text: &[u8]) -> Option<usize>
    ensures { result ≡ position (λ c. not (is_blank c)) text.now }
{
    text.iter().position(|c| !is_blank(*c))
}

// Where a word ends that a text begins with, if a blank ends it.
fn first_blank(text: &[u8]) -> Option<usize>
    ensures { result ≡ position is_blank text.now }
{
    text.iter().position(|c| is_blank(*c))
}

// The words of a text, in order.
#[derive(Drop)]
pub struct TextWords<'a>(pub &'a [u8]);

impl<'a> Iterator for TextWords<'a> {
    type Item = &'a [u8];

    ghost next_gives = { YieldsFirstRef (λ words. text_words words.0.now) };

    ghost remaining = { item_count (λ words. text_words words.0.now) };

    fn next(&mut self) -> Option<&'a [u8]> {
        let start = first_letter(self.0)?;
        let text = &self.0[start..];
        let end = first_blank(text).unwrap_or(text.len());
        self.0 = &text[end..];
        Some(&text[..end])
    }
}

// How many words a text has.
#[tactic(auto, using(crate::proofs::Words::words_room_lem))]
pub fn word_count(text: &[u8]) -> usize
    ensures { result ≡ length (text_words text.now) }
{
    TextWords(text).count()
}

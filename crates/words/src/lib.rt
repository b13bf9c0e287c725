// Finds the words of a content, one behind the other, and the place of a word in a table of names.
// specs/Spelling.antt says how a content is composed, and proofs/Content.antt shows that just these words are found.
#![tactic(auto)]

ghost use Rattle.std.specs.Prelude.{◌≡◌, ◌≤◌, drop, length};
ghost use Rattle.laws.specs.Text.{same};
ghost use Rattle.words.specs.Cutting.{start_of, end_of, word_at, cut, head_word, tail_words, past_of};
ghost use Rattle.words.specs.Find.{found};

// Where a word stands: from start to before end. Where there is none, both are the end of the text.
#[derive(Clone, Copy)]
pub struct Word {
    pub start: usize,
    pub end: usize,
}

// The bytes from at on.
fn rest(s: &[u8], at: usize) -> &[u8]
    ensures { result.now ≡ drop at s.now }
{
    s.get(at..).unwrap_or(&[])
}

// The first place from at on that has no space.
pub fn start_of(s: &[u8], at: usize) -> usize
    ensures { result ≡ start_of s.now at }
{
    let behind = rest(s, at);
    at + behind
        .iter()
        .position(|byte| *byte != b' ')
        .unwrap_or(behind.len())
}

// The first place from at on that has a space, or the end.
fn word_end(s: &[u8], at: usize) -> usize
    ensures { result ≡ end_of s.now at }
{
    let word = rest(s, at);
    at + word
        .iter()
        .position(|byte| *byte == b' ')
        .unwrap_or(word.len())
}

// The first word from at on.
pub fn word_at(s: &[u8], at: usize) -> Word
    ensures found { result ≡ word_at s.now at }
    ensures ordered { result.start ≤ result.end }
    ensures within { result.end ≤ length s.now }
{
    let start = start_of(s, at);
    if s.len() <= start {
        return Word {
            start: s.len(),
            end: s.len(),
        };
    }
    let end = word_end(s, start);
    Word { start, end }
}

// The first word from at on, or nothing where there is none.
pub fn first_word(s: &[u8], at: usize) -> &[u8]
    ensures { result.now ≡ head_word (cut (drop at s.now)) }
{
    let Word { start, end } = word_at(s, at);
    &s[start..end]
}

// The place behind the first word from at on, or the end of the text: the words from there on are the others.
pub fn past_word(s: &[u8], at: usize) -> usize
    ensures place { result ≡ past_of s.now at }
    ensures others { cut (drop result s.now) ≡ tail_words (cut (drop at s.now)) }
{
    word_at(s, at).end
}

// Do a and b hold the same bytes?
#[tactic(auto, using(laws::proofs::Same::same_is))]
pub fn same_bytes(a: &[u8], b: &[u8]) -> bool
    ensures { result ≡ same a.now b.now }
{
    a == b
}

// The place of w among the words of names, from 0, or none where it is none of them.
pub fn find_word(w: &[u8], names: &[u8]) -> Option<usize>
    ensures { result ≡ found w.now (cut names.now) }
{
    let mut at = 0;
    for k in 0..names.len() {
        let Word { start, end } = word_at(names, at);
        if start == end {
            return None;
        }
        if w == &names[start..end] {
            return Some(k);
        }
        at = end;
    }
    None
}

// The word of s at a place from 0, or nothing where there are not so many.
pub fn nth_word(s: &[u8], k: usize) -> &[u8]
    ensures { result.now ≡ head_word (drop k (cut s.now)) }
{
    let mut place = 0;
    for _ in 0..k {
        place = past_word(s, place);
    }
    first_word(s, place)
}

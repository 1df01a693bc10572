// Words of a head, which are compared in any case.
ghost use Rattle.std.specs.Prelude.{◌≡◌};
ghost use Rattle.http_head.specs.Words.{same_word, begins_with};

pub fn same_word(a: &[u8], b: &[u8]) -> bool
    ensures { result ≡ same_word a.now b.now }
{
    a.eq_ignore_ascii_case(b)
}

pub fn begins_with(text: &[u8], word: &[u8]) -> bool
    ensures { result ≡ begins_with text.now word.now }
{
    same_word(&text[..word.len().min(text.len())], word)
}

// Raw words from raw bytes.
ghost use Rattle.std.specs.Prelude.{◌≡◌, ◌++◌, ◌/◌, ◌≤◌, drop, length};
ghost use Rattle.drawing.specs.Raws.{raw_words};

// Writes the words of all the bytes, and answers how many they are.
pub fn raw_words(raw: &[u8], words: &mut [u64]) -> usize
    requires { length raw.now / 8 ≤ length words.old }
    ensures count { result ≡ length raw.now / 8 }
    ensures words { words.new ≡ raw_words result raw.now ++ drop result words.old }
{
    let (chunks, _) = raw.as_chunks::<8>();
    for (i, bytes) in chunks.iter().enumerate() {
        words[i] = u64::from_le_bytes(*bytes);
    }
    chunks.len()
}

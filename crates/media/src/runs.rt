// Writing runs of bytes to any medium. A run goes in whole or not at all: the space is looked at before the first byte is written.
// The clauses on the medium stand at each function: one definition of them would take seven arguments, and be no plainer.
ghost use Rattle.std.specs.Prelude.{◌≡◌, ◌+◌, ◌-◌, ◌<◌, ◌≤◌, [], ◌∷◌, ◌++◌, length, is_ok, if◌then◌else◌, nat_le};

use crate::{Full, Medium, Source};

// The bytes at the end of the content.
pub fn append_run<M: Medium>(m: &mut M, bytes: &[u8]) -> Result<(), Full>
    ensures granted { is_ok result ≡ nat_le (length (M.Source.content m.old) + length bytes.now) (M.Medium.room m.old) }
    ensures after { M.Source.content m.new ≡ (if is_ok result then M.Source.content m.old ++ bytes.now else M.Source.content m.old) }
    ensures len { length (M.Source.content m.new) ≡ length (M.Source.content m.old) + (if is_ok result then length bytes.now else 0) }
    ensures kept { M.Medium.room m.new ≡ M.Medium.room m.old }
{
    if m.capacity() - m.length() < bytes.len() {
        return Err(Full);
    }
    for b in bytes {
        m.append(*b).unwrap();
    }
    Ok(())
}

// A line at the end of the content: its text, then byte 10.
pub fn append_line<M: Medium>(m: &mut M, text: &[u8]) -> Result<(), Full>
    ensures granted { is_ok result ≡ nat_le (length (M.Source.content m.old) + (length text.now + 1)) (M.Medium.room m.old) }
    ensures after { M.Source.content m.new ≡ (if is_ok result then M.Source.content m.old ++ (text.now ++ 10 ∷ []) else M.Source.content m.old) }
    ensures len { length (M.Source.content m.new) ≡ length (M.Source.content m.old) + (if is_ok result then length text.now + 1 else 0) }
    ensures kept { M.Medium.room m.new ≡ M.Medium.room m.old }
{
    if m.capacity() - m.length() <= text.len() {
        return Err(Full);
    }
    append_run(m, text).unwrap();
    m.append(b'\n')
}

// The given bytes in place of the content.
pub fn replace_content<M: Medium>(m: &mut M, content: &[u8]) -> Result<(), Full>
    ensures granted { is_ok result ≡ nat_le (length content.now) (M.Medium.room m.old) }
    ensures after { M.Source.content m.new ≡ (if is_ok result then content.now else M.Source.content m.old) }
    ensures len { length (M.Source.content m.new) ≡ (if is_ok result then length content.now else length (M.Source.content m.old)) }
    ensures kept { M.Medium.room m.new ≡ M.Medium.room m.old }
{
    if m.capacity() < content.len() {
        return Err(Full);
    }
    m.empty();
    append_run(m, content)
}

//! Signs, and texts of a list.

ghost use Rattle.std.specs.Prelude.{◌≡◌, ◌≤◌, length, take, nat_le, nat_lt, ◌&&◌, slice_index, MatchOption};
ghost use Rattle.std.specs.List.{list_any};
ghost use Rattle.nm_base.specs.declared.token.Kind.{Kind as KindOf};
ghost use Rattle.nesc_tokens.specs.Spelling.{is_one_of, same_bytes, signs};
ghost use Rattle.nesc_tokens.specs.Longest.{IsLongestOf, IsNoSign, LongestOf, is_second, is_single};

use nm_base::Kind;

const SIGNS: [&[u8]; 49] = [
    b"->", b"<-", b"++", b"--", b"<<", b">>", b"<=", b">=", b"==", b"!=", b"&&", b"||", b"+=",
    b"-=", b"*=", b"/=", b"%=", b"&=", b"|=", b"^=", b"<<=", b">>=", b"...", b"{", b"}", b"(",
    b")", b"[", b"]", b";", b",", b".", b"<", b">", b"=", b"+", b"-", b"*", b"/", b"%", b"&", b"|",
    b"^", b"~", b"!", b"?", b":", b"@", b"#",
];

// The bytes that stand second in a sign.
const SECOND_BYTES: &[u8] = b"-+<>=&|.";

// The signs of one byte.
const SINGLE_SIGNS: &[u8] = b"{}()[];,.<>=+-*/%&|^~!?:@#";

/// Whether the bytes are one of the texts.
pub fn is_one_of(texts: &[&[u8]], bytes: &[u8]) -> bool
    ensures { result ≡ list_any (λ t. same_bytes bytes.now t.now) texts.now }
{
    texts.iter().any(|text| bytes == *text)
}

fn is_sign(bytes: &[u8]) -> bool
    ensures { result ≡ is_one_of signs bytes.now }
{
    is_one_of(&SIGNS, bytes)
}

// Whether the first n bytes are a sign.
fn is_sign_of(bytes: &[u8], n: usize) -> bool
    ensures { result ≡ (nat_le n (length bytes.now) && is_one_of signs (take n bytes.now)) }
{
    bytes.len() >= n && is_sign(&bytes[..n])
}

// Whether the second byte may be one of a sign.
fn may_go_on(bytes: &[u8]) -> bool
    ensures { result ≡ (nat_lt 1 (length bytes.now) && is_second (slice_index bytes.now 1)) }
{
    bytes.len() > 1 && SECOND_BYTES.contains(&bytes[1])
}

// How many bytes the longest sign at the front has, if it has more than one.
fn longer_sign(bytes: &[u8]) -> Option<usize>
    ensures { MatchOption result (IsNoSign 3 bytes.now × IsNoSign 2 bytes.now) (λ n. IsLongestOf Kind.Sign n bytes.now) }
{
    if !may_go_on(bytes) {
        return None;
    }
    if is_sign_of(bytes, 3) {
        return Some(3);
    }
    if is_sign_of(bytes, 2) {
        return Some(2);
    }
    None
}

// Whether the first byte is a sign.
fn is_single_sign(bytes: &[u8]) -> bool
    ensures { result ≡ (nat_lt 0 (length bytes.now) && is_single (slice_index bytes.now 0)) }
{
    !bytes.is_empty() && SINGLE_SIGNS.contains(&bytes[0])
}

/// How many bytes the longest sign at the front has.
pub fn sign(bytes: &[u8]) -> Option<usize>
    ensures { LongestOf Kind.Sign result bytes.now }
{
    if let Some(n) = longer_sign(bytes) {
        return Some(n);
    }
    if is_single_sign(bytes) {
        return Some(1);
    }
    None
}

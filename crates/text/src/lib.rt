// How numbers, bytes in hexadecimal and words stand in the lines that programs read and write.
// A line may hold any bytes, so all of it is over bytes and not over text.
#![tactic(auto)]

ghost use Rattle.std.specs.Prelude.{◌≡◌, ◌<◌, ◌∷◌, ◌++◌, IfOk, MatchOption, vec_items, string_bytes};
ghost use Rattle.std.specs.Option.{option_map};
ghost use Rattle.text.specs.Decimal.{number_of, with_digit};
ghost use Rattle.text.specs.Hex.{hex_digit, hex_of, hex_value, join_digits, bytes_of, ReadsBack, WrittenSo};
ghost use Rattle.text.specs.Words.{line_of, FirstAt, NoneIs, up_to, past, first_word, rest_of, words_of, words_behind, space_and, Spaceless};

use std::alloc::{AllocError, Global};

pub mod parting;

// The decimal number that a word writes: digits alone, and at most `u32::MAX`. Not std's parse, which takes text, and a sign.
pub fn number(word: &[u8]) -> Option<u32>
    ensures { result ≡ number_of word.now }
{
    if word.is_empty() {
        return None;
    }
    let mut read = 0;
    for b in word {
        read = with_digit(read, *b)?;
    }
    Some(read)
}

// The number `read` with the digit `b` behind it.
fn with_digit(read: u32, b: u8) -> Option<u32>
    ensures { result ≡ with_digit read b }
{
    read.checked_mul(10)?
        .checked_add(char::from(b).to_digit(10)?)
}

// Bytes in hexadecimal, in lower case. The crate hex would be no plainer: its laws are of an encoding by a table and by position.
pub fn hex_of(heap: Global, bytes: &[u8]) -> Result<String, AllocError>
    ensures { IfOk result (λ t. string_bytes t ≡ hex_of bytes.now) }
{
    let mut text = String::new(heap);
    for b in bytes {
        text.push(hex_digit(*b / 16))?;
        text.push(hex_digit(*b % 16))?;
    }
    Ok(text)
}

fn hex_digit(n: u8) -> char
    requires { n < 16 }
    ensures value { result ≡ hex_digit n }
    ensures ascii { result < 128 }
{
    char::from_digit(u32::from(n), 16).unwrap_or('0')
}

// The bytes that hexadecimal digits write, in either case: none where they write no bytes.
pub fn bytes_of(heap: Global, digits: &[u8]) -> Result<Option<Vec<u8>>, AllocError>
    ensures { IfOk result (λ found. option_map vec_items found ≡ bytes_of digits.now) }
{
    let mut bytes = Vec::new(heap);
    let mut rest = digits;
    // two at a time by a pattern, which leaves the odd one; of chunks it would have to be told apart
    while let [high, low, after @ ..] = rest {
        let Some(byte) = byte_of(*high, *low) else {
            return Ok(None);
        };
        bytes.push(byte)?;
        rest = after;
    }
    Ok(if rest.is_empty() { Some(bytes) } else { None })
}

fn byte_of(high: u8, low: u8) -> Option<u8>
    ensures { result ≡ join_digits (hex_value high) (hex_value low) }
{
    Some(hex_value(high)? * 16 + hex_value(low)?)
}

fn hex_value(c: u8) -> Option<u8>
    ensures { result ≡ hex_value c }
{
    char::from(c).to_digit(16).map(|digit| digit as u8)
}

// A line as it was read, without the line feed at its end.
pub fn line_of(read: &[u8]) -> &[u8]
    ensures { result.now ≡ line_of read.now }
{
    read.strip_suffix(b"\n").unwrap_or(read)
}

// Where the first byte of a kind stands.
fn first_at(bytes: &[u8], end: u8) -> Option<usize>
    ensures { MatchOption result (NoneIs end bytes.now) (FirstAt end bytes.now) }
{
    bytes.iter().position(|b| *b == end)
}

// What stands before the first byte of a kind and, where there is one, what stands behind it.
pub fn cut_at(bytes: &[u8], end: u8) -> (&[u8], Option<&[u8]>)
    ensures before { result.0.now ≡ up_to end bytes.now }
    ensures behind { option_map (λ x. x.now) result.1 ≡ past end bytes.now }
{
    match first_at(bytes, end) {
        Some(i) => (&bytes[0..i], Some(&bytes[i + 1..])),
        None => (bytes, None),
    }
}

// The first word of a line and, where a space ends it, what stands behind that space.
pub fn cut(line: &[u8]) -> (&[u8], Option<&[u8]>)
    ensures word { result.0.now ≡ first_word line.now }
    ensures rest { option_map (λ x. x.now) result.1 ≡ rest_of line.now }
    ensures words { words_of line.now ≡ result.0.now ∷ words_behind (option_map (λ x. x.now) result.1) }
    ensures whole { line.now ≡ result.0.now ++ space_and (option_map (λ x. x.now) result.1) }
    ensures spaceless { Spaceless result.0.now }
{
    cut_at(line, b' ')
}

// Bytes that are written in hexadecimal are read back as they were.
pub fn hex_reads_back()
    ensures { ReadsBack }
{}

// Digits in lower case that are read are the digits that would be written.
pub fn hex_written_so()
    ensures { WrittenSo }
{}

#[cfg(test)]
mod tests {
    use super::*;
    use std::test::Fail;

    #[test]
    fn numbers(rt: HostRuntime) -> Result<(), Fail> {
        for (word, read) in [
            ("0", Some(0)),
            ("00012", Some(12)),
            ("4294967295", Some(4_294_967_295)),
            ("4294967296", None),
            ("42949672950", None),
            ("", None),
            ("+1", None),
            ("1 ", None),
            ("1/", None),
            ("1:", None),
        ] {
            assert_eq!(rt; number(word.as_bytes()), read, "{}", word);
        }
        let zeros = vec![in rt.alloc(); b'0'; 100_000]?;
        assert_eq!(rt; number(zeros.as_slice()), Some(0));
        assert_eq!(rt; number(&[b'1', 255]), None);
        Ok(())
    }

    #[test]
    fn hex(rt: HostRuntime) -> Result<(), Fail> {
        assert_eq!(rt; hex_of(rt.alloc(), &[])?.as_str(), "");
        assert_eq!(rt;
            hex_of(rt.alloc(), &[0, 9, 10, 77, 255])?.as_str(),
            "00090a4dff"
        );
        for digits in ["00090a4dff", "00090A4dFf"] {
            let Some(bytes) = bytes_of(rt.alloc(), digits.as_bytes())? else {
                return Err(Fail::new(digits));
            };
            assert_eq!(rt;
                bytes.as_slice(),
                [0, 9, 10, 77, 255].as_slice(),
                "{}",
                digits
            );
        }
        let Some(none) = bytes_of(rt.alloc(), &[])? else {
            return Err(Fail::new("no digits"));
        };
        assert!(rt; none.is_empty());
        Ok(())
    }

    #[test]
    fn no_hex(rt: HostRuntime) -> Result<(), Fail> {
        for digits in [
            "0", "00f", "0g", "g0", "G0", "0@", "0`", "0/", "0:", " 0", "0x00",
        ] {
            assert!(rt;
                bytes_of(rt.alloc(), digits.as_bytes())?.is_none(),
                "{}",
                digits
            );
        }
        assert!(rt; bytes_of(rt.alloc(), &[b'0', 255])?.is_none());
        Ok(())
    }

    #[test]
    fn cuts(rt: HostRuntime) -> Result<(), Fail> {
        for (line, word, rest) in [
            ("hear 12", "hear", "12"),
            ("hear 12 4c00", "hear", "12 4c00"),
            ("hear  12", "hear", " 12"),
            ("hear ", "hear", ""),
            (" hear", "", "hear"),
        ] {
            let (first, Some(behind)) = cut(line.as_bytes()) else {
                return Err(Fail::new(line));
            };
            assert_eq!(rt; first, word.as_bytes(), "{}", line);
            assert_eq!(rt; behind, rest.as_bytes(), "{}", line);
        }
        for line in ["", "hear", "hear\t12"] {
            let (first, behind) = cut(line.as_bytes());
            assert_eq!(rt; first, line.as_bytes(), "{}", line);
            assert!(rt; behind.is_none(), "{}", line);
        }
        Ok(())
    }

    #[test]
    fn lines(rt: HostRuntime) {
        assert_eq!(rt; line_of(b"work\n"), b"work".as_slice());
        assert_eq!(rt; line_of(b"work"), b"work".as_slice());
        assert_eq!(rt; line_of(b"work\r\n"), b"work\r".as_slice());
        assert_eq!(rt; line_of(b"\n\n"), b"\n".as_slice());
        assert_eq!(rt; line_of(b"\n"), b"".as_slice());
        assert_eq!(rt; line_of(b""), b"".as_slice());
    }
}

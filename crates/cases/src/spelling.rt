//! How a case spells its bytes.
ghost use Rattle.std.specs.Prelude.{◌≡◌, ◌≢◌, ◌+◌, ◌*◌, ◌++◌, ◌<◌, ◌≤◌, length, OnOk, Err, Some, None, IfOk, IfErr, IfSome, IfNone, vec_len};
ghost use Rattle.std.specs.List.{before_first, list_all, repeat};
ghost use Rattle.hex.specs.Hex.{is_hex_digit};
ghost use Rattle.cases.specs.Spelling.{is_star, number, of_hex, often, piece, spelled, token_bytes};
ghost use Rattle.cases.specs.declared.spelling.SpellError.TheVariants.{Malformed, TooLong, OutOfMemory};

use hex::FromHexError;
use std::alloc::{AllocError, Global};

/// The most bytes that a case may have.
const MOST: usize = 1200000;

/// Why a case has no bytes.
#[derive(Clone, Copy, PartialEq, Eq, Debug)]
pub enum SpellError {
    /// Its tokens spell none.
    Malformed,
    /// They spell more than a case may have.
    TooLong,
    /// There is no memory for them.
    OutOfMemory,
}

impl From<AllocError> for SpellError {
    ghost from_gives = { λ _ e. e ≡ OutOfMemory };

    fn from(_error: AllocError) -> SpellError {
        SpellError::OutOfMemory
    }
}

impl From<FromHexError> for SpellError {
    ghost from_gives = { λ h e. e ≡ of_hex h };

    fn from(error: FromHexError) -> SpellError {
        match error {
            FromHexError::OutOfMemory => SpellError::OutOfMemory,
            _ => SpellError::Malformed,
        }
    }
}

/// The bytes that the tokens of a case spell.
pub fn bytes_of(heap: Global, text: &str) -> Result<Vec<u8>, SpellError>
    ensures ok { IfOk result (λ v. (spelled text.now ≡ Some v.items) × (vec_len v ≤ 1200000)) }
    ensures malformed { result ≡ Err Malformed → spelled text.now ≡ None }
    ensures too_long { result ≡ Err TooLong → IfSome (spelled text.now) (λ bytes. 1200000 < length bytes) }
{
    let mut bytes = Vec::new(heap);
    if text.is_empty() {
        return Ok(bytes);
    }
    let Some(tokens) = text.strip_prefix(' ') else {
        return Err(SpellError::Malformed);
    };
    for token in tokens.split(' ') {
        let (piece, times) = token_of(heap, token, MOST - bytes.len())?;
        add_times(&mut bytes, piece.as_slice(), times)?;
    }
    Ok(bytes)
}

/// The piece of a token, and how many times it stands there; these may be so many bytes in all.
fn token_of(heap: Global, token: &str, room: usize) -> Result<(Vec<u8>, usize), SpellError>
    ensures ok { IfOk result (λ p. let more = repeat p.1 p.0.items in (token_bytes token.now ≡ Some more) × (length more ≤ room)) }
    ensures malformed { result ≡ Err Malformed → token_bytes token.now ≡ None }
    ensures too_long { result ≡ Err TooLong → IfSome (token_bytes token.now) (λ more. room < length more) }
{
    let (digits, times) = parts_of(token).ok_or(SpellError::Malformed)?;
    let piece = piece_of(heap, digits)?;
    match piece.len().checked_mul(times) {
        Some(more) if more <= room => Ok((piece, times)),
        _ => Err(SpellError::TooLong),
    }
}

/// Adds a piece so many times: once, and then what stands of it already, so that few copies make many bytes.
fn add_times(bytes: &mut Vec<u8>, piece: &[u8], times: usize) -> Result<(), AllocError>
    requires { vec_len bytes.old + times * length piece.now ≤ 1200000 }
    ensures { OnOk result (bytes.new.items ≡ bytes.old.items ++ repeat times piece.now) }
{
    if times == 0 {
        return Ok(());
    }
    let start = bytes.len();
    bytes.extend_from_slice(piece)?;
    let mut done = 1;
    while done < times {
        let more = done.min(times - done);
        bytes.extend_from_within(start..start + more * piece.len())?;
        done += more;
    }
    Ok(())
}

/// The digits of a token, and how many times its bytes stand there.
fn parts_of(token: &str) -> Option<(&str, usize)>
    ensures some { IfSome result (λ p. (p.0.now ≡ before_first is_star token.now) × (often token.now ≡ Some p.1)) }
    ensures none { IfNone result (often token.now ≡ None) }
{
    match token.split_once('*') {
        Some((digits, count)) => Some((digits, number_of(count)?)),
        None => Some((token, 1)),
    }
}

/// The number that decimal digits write.
fn number_of(digits: &str) -> Option<usize>
    ensures { result ≡ number digits.now }
{
    digits.parse().ok()
}

/// The bytes that hexadecimal digits spell, one at least.
fn piece_of(heap: Global, digits: &str) -> Result<Vec<u8>, SpellError>
    ensures ok { IfOk result (λ v. piece digits.now ≡ Some v.items) }
    ensures err { IfErr result (λ e. e ≢ TooLong) }
    ensures malformed { result ≡ Err Malformed → piece digits.now ≡ None }
{
    // Ahead of the decoding, which takes all its memory at once: a text of other characters gets none.
    if !are_digits(digits.as_bytes()) {
        return Err(SpellError::Malformed);
    }
    let bytes = hex::decode(heap, digits)?;
    if bytes.is_empty() {
        return Err(SpellError::Malformed);
    }
    Ok(bytes)
}

/// Whether these are hexadecimal digits. It reads to the end in any case, which lets it look at many at once.
fn are_digits(text: &[u8]) -> bool
    ensures { result ≡ list_all is_hex_digit text.now }
{
    let mut good = true;
    for byte in text {
        good &= byte.is_ascii_hexdigit();
    }
    good
}

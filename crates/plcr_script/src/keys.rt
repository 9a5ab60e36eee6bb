//! The keys of descriptive values, as scripts name them.
ghost use Rattle.std.specs.Prelude.{◌≡◌};
ghost use Rattle.plcr_script.specs.Keys as keys;

/// A key whose value is a number, or a choice by 0 and 1.
#[derive(Clone, Copy, Debug, PartialEq, Eq)]
pub enum NumberKey {
    Os,
    Timestamp,
    Address,
    Pid,
    Ppid,
    Crashed,
    User,
    Bits,
}

/// A key whose value is a text.
#[derive(Clone, Copy, Debug, PartialEq, Eq)]
pub enum TextKey {
    OsVersion,
    Identifier,
    Version,
    Signal,
    Code,
    Process,
}

/// The key of a number by its word.
pub(crate) fn number_key(word: &[u8]) -> Option<NumberKey>
    ensures { result ≡ keys.number_key_in word.now }
{
    if word == b"os".as_slice() {
        return Some(NumberKey::Os);
    }
    if word == b"timestamp".as_slice() {
        return Some(NumberKey::Timestamp);
    }
    if word == b"address".as_slice() {
        return Some(NumberKey::Address);
    }
    if word == b"pid".as_slice() {
        return Some(NumberKey::Pid);
    }
    if word == b"ppid".as_slice() {
        return Some(NumberKey::Ppid);
    }
    if word == b"crashed".as_slice() {
        return Some(NumberKey::Crashed);
    }
    if word == b"user".as_slice() {
        return Some(NumberKey::User);
    }
    if word == b"bits".as_slice() {
        return Some(NumberKey::Bits);
    }
    None
}

/// The key of a text by its word.
pub(crate) fn text_key(word: &[u8]) -> Option<TextKey>
    ensures { result ≡ keys.text_key_in word.now }
{
    if word == b"osversion".as_slice() {
        return Some(TextKey::OsVersion);
    }
    if word == b"identifier".as_slice() {
        return Some(TextKey::Identifier);
    }
    if word == b"version".as_slice() {
        return Some(TextKey::Version);
    }
    if word == b"signal".as_slice() {
        return Some(TextKey::Signal);
    }
    if word == b"code".as_slice() {
        return Some(TextKey::Code);
    }
    if word == b"process".as_slice() {
        return Some(TextKey::Process);
    }
    None
}

/// The least number of a key.
pub(crate) fn least_of(key: NumberKey) -> u128
    ensures { result ≡ keys.least_of key }
{
    match key {
        NumberKey::Bits => 32,
        _ => 0,
    }
}

/// One past the greatest number of a key.
pub(crate) fn limit_of(key: NumberKey) -> u128
    ensures { result ≡ keys.limit_of key }
{
    match key {
        NumberKey::Os => 3,
        NumberKey::Timestamp => 1 << 63,
        NumberKey::Address => 1 << 64,
        NumberKey::Pid => 1 << 32,
        NumberKey::Ppid => 1 << 32,
        NumberKey::Crashed => 1 << 32,
        NumberKey::User => 2,
        NumberKey::Bits => 65,
    }
}

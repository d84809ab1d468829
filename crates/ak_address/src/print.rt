ghost use Rattle.std.specs.Prelude.{◌≡◌, ◌<◌, ◌∷◌, ◌++◌, OnOk, OnErr, decimal, take, vec_len};
ghost use Rattle.ak_address.specs.Spelling.{address_text, unique_text};

use itoa::Buffer;
use std::alloc::AllocError;

/// Appends the number's decimal digits, with no leading zero. Where memory runs out `out` is as it was.
#[inline]
pub fn print_number(number: u64, out: &mut Vec<u8>) -> Result<(), AllocError>
    ensures ok { OnOk result (out.new.items ≡ out.old.items ++ decimal number) }
    ensures err { OnErr result (out.new.items ≡ out.old.items) }
{
    if number < 10 {
        // Most numbers have one digit.
        out.push(b'0' + number as u8)?;
        return Ok(());
    }
    print_digits(number, out)
}

// The same of any number. Apart, so that what prints one digit stays small.
#[inline(never)]
fn print_digits(number: u64, out: &mut Vec<u8>) -> Result<(), AllocError>
    ensures ok { OnOk result (out.new.items ≡ out.old.items ++ decimal number) }
    ensures err { OnErr result (out.new.items ≡ out.old.items) }
{
    let mut buffer = Buffer::new();
    out.extend_from_slice(buffer.format(number).as_bytes())
}

/// Appends the decimal digits of a number of up to 128 bits, with no leading zero. Where memory runs out `out` is as it
/// was.
pub fn print_wide_number(number: u128, out: &mut Vec<u8>) -> Result<(), AllocError>
    ensures ok { OnOk result (out.new.items ≡ out.old.items ++ decimal number) }
    ensures err { OnErr result (out.new.items ≡ out.old.items) }
{
    // Nearly all fit in 64 bits, whose digits are found in half the time.
    if let Ok(number) = u64::try_from(number) {
        return print_number(number, out);
    }
    let mut buffer = Buffer::new();
    out.extend_from_slice(buffer.format(number).as_bytes())
}

/// Appends `host:port`. Where memory runs out `out` is as it was.
pub fn print_address(host: &[u8], port: u16, out: &mut Vec<u8>) -> Result<(), AllocError>
    ensures ok { OnOk result (out.new.items ≡ out.old.items ++ address_text (record { host = host.now; port = port })) }
    ensures err { OnErr result (out.new.items ≡ out.old.items) }
{
    let start = out.len();
    let printed = append_address(host, port, out);
    if printed.is_err() {
        out.truncate(start);
    }
    printed
}

/// Appends `host:port#uid`. Where memory runs out `out` is as it was.
pub fn print_unique(host: &[u8], port: u16, uid: u64, out: &mut Vec<u8>) -> Result<(), AllocError>
    ensures ok { OnOk result (out.new.items
        ≡ out.old.items ++ unique_text (record { address = record { host = host.now; port = port }; uid = uid })) }
    ensures err { OnErr result (out.new.items ≡ out.old.items) }
{
    let start = out.len();
    let printed = append_unique(host, port, uid, out);
    if printed.is_err() {
        out.truncate(start);
    }
    printed
}

// Where memory runs out some of it may stand after what `out` had.
#[inline(always)]
fn append_address(host: &[u8], port: u16, out: &mut Vec<u8>) -> Result<(), AllocError>
    ensures ok { OnOk result (out.new.items ≡ out.old.items ++ (host.now ++ 58 ∷ decimal port)) }
    ensures err { OnErr result (take (vec_len out.old) out.new.items ≡ out.old.items) }
{
    out.extend_from_slice(host)?;
    append_after(b':', u64::from(port), out)
}

// Where memory runs out some of it may stand after what `out` had.
#[inline(always)]
fn append_unique(host: &[u8], port: u16, uid: u64, out: &mut Vec<u8>) -> Result<(), AllocError>
    ensures ok { OnOk result (out.new.items ≡ out.old.items ++ (host.now ++ 58 ∷ decimal port ++ 35 ∷ decimal uid)) }
    ensures err { OnErr result (take (vec_len out.old) out.new.items ≡ out.old.items) }
{
    append_address(host, port, out)?;
    append_after(b'#', uid, out)
}

// Appends a byte and a number after it. There is room for one digit once there is room for the byte.
#[inline(always)]
fn append_after(byte: u8, number: u64, out: &mut Vec<u8>) -> Result<(), AllocError>
    ensures ok { OnOk result (out.new.items ≡ out.old.items ++ byte ∷ decimal number) }
    ensures err { OnErr result (take (vec_len out.old) out.new.items ≡ out.old.items) }
{
    out.reserve(2)?;
    out.push_reserved(byte);
    if number < 10 {
        out.push_reserved(b'0' + number as u8);
        return Ok(());
    }
    print_digits(number, out)
}

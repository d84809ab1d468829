ghost use Rattle.std.specs.Prelude.{◌≡◌, ◌≤◌, ◌<◌, ◌^◌, ◌∷◌, IfOk, decimal};
ghost use Rattle.ak_generate.specs.Fixed.{address, process};

use ak_address::{Address, Text, Unique, print_number};
use std::alloc::{AllocError, Global};

// A letter and a number in decimal.
pub(crate) fn numbered(alloc: Global, letter: u8, number: u64) -> Result<Text, AllocError>
    ensures { IfOk result (λ text. text ≡ letter ∷ decimal number) }
{
    if number < 10 {
        // Most have one digit, and ask for no memory.
        return Text::from_bytes(alloc, &[letter, b'0' + number as u8]);
    }
    let mut bytes = Vec::new(alloc);
    bytes.push(letter)?;
    print_number(number, &mut bytes)?;
    Text::from_bytes(alloc, &bytes)
}

// The listed address of a number.
pub(crate) fn address(alloc: Global, number: u64) -> Result<Address, AllocError>
    requires from { 1 ≤ number }
    requires to { number ≤ 5 }
    ensures { IfOk result (λ at. at ≡ address number) }
{
    let host = numbered(alloc, b'n', number)?;
    Ok(Address { host, port: 1 })
}

// A process at the listed address of a number.
pub(crate) fn process(alloc: Global, number: u64, uid: u64) -> Result<Unique, AllocError>
    requires from { 1 ≤ number }
    requires to { number ≤ 5 }
    requires some { 1 ≤ uid }
    requires fits { uid < 2 ^ 63 }
    ensures { IfOk result (λ who. who ≡ process number uid) }
{
    let address = address(alloc, number)?;
    Ok(Unique { address, uid })
}

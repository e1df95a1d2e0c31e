// Why the program ended before its command began.
ghost use Rattle.std.specs.Prelude.{◌≡◌, ◌++◌, ◌<◌, IfOk, OnOk};
ghost use Rattle.std.specs.Char.{digit_char};
ghost use Rattle.std.specs.IoError.{error_kind};
ghost use Rattle.oe_adapters.specs.Setup.{IsSetupFault, program_fault_line, fault_status, setup_line, spelled_byte, spelled_name};
ghost use Rattle.oe_adapters.specs.declared.fault.Fault.TheVariants as variant;

use oe_memory::OutOfMemory;
use std::alloc::{AllocError, Global};
use std::io::{Error, ErrorKind};

/// A fault of the program's own.
#[derive(Drop)]
pub enum Fault {
    /// What the program needs could not be opened, made, read or mounted, and this is the line that names it.
    Setup(Vec<u8>),
    /// Standard output could not be written.
    Write,
    /// An allocation was refused.
    OutOfMemory,
}

impl Fault {
    /// That a file could not be set up, by its name within its folder; out of memory where its line takes more than
    /// there is.
    pub fn setup(alloc: Global, name: &[u8]) -> Fault
        ensures { IsSetupFault name.now result }
    {
        match spell_setup(alloc, name) {
            Ok(line) => Fault::Setup(line),
            Err(_) => Fault::OutOfMemory,
        }
    }

    /// That the system refused a file: out of memory where that is the cause.
    pub fn of_error(alloc: Global, error: &Error, name: &[u8]) -> Fault
        ensures setup { IsSetupFault name.now result }
        ensures memory { error_kind error.now ≡ ErrorKind.OutOfMemory
            → result ≡ variant.OutOfMemory }
    {
        if error.kind() == ErrorKind::OutOfMemory {
            Fault::OutOfMemory
        } else {
            Fault::setup(alloc, name)
        }
    }

    /// The exit status: 14, 8 or 9.
    pub fn status(&self) -> u8
        ensures { result ≡ fault_status self.now }
    {
        match self {
            Fault::Setup(_) => 14,
            Fault::Write => 8,
            Fault::OutOfMemory => 9,
        }
    }

    /// The line that goes to standard error, with its line feed.
    pub fn line(&self) -> &[u8]
        ensures { result.now ≡ program_fault_line self.now }
    {
        match self {
            Fault::Setup(line) => line.as_slice(),
            Fault::Write => b"openeo: WriteFault\n",
            Fault::OutOfMemory => b"openeo: OutOfMemory\n",
        }
    }
}

/// The line of a file that could not be set up.
fn spell_setup(alloc: Global, name: &[u8]) -> Result<Vec<u8>, AllocError>
    ensures { IfOk result (λ line. line.items ≡ setup_line name.now) }
{
    let mut line = Vec::new(alloc);
    line.extend_from_slice(b"openeo: Setup ")?;
    spell_name(&mut line, name)?;
    line.push(b'\n')?;
    Ok(line)
}

/// Appends a name as a line spells it.
fn spell_name(line: &mut Vec<u8>, name: &[u8]) -> Result<(), AllocError>
    ensures { OnOk result (line.new.items ≡ line.old.items ++ spelled_name name.now) }
{
    for byte in name {
        spell_byte(line, *byte)?;
    }
    Ok(())
}

/// Appends a byte of a name: a terminal is not to act on what a name has.
fn spell_byte(line: &mut Vec<u8>, byte: u8) -> Result<(), AllocError>
    ensures { OnOk result (line.new.items ≡ line.old.items ++ spelled_byte byte) }
{
    match byte {
        b'\\' => line.extend_from_slice(b"\\\\"),
        b' '..=b'~' => line.extend_from_slice(&[byte]),
        _ => line.extend_from_slice(&[b'\\', b'x', hex_digit(byte / 16), hex_digit(byte % 16)]),
    }
}

fn hex_digit(value: u8) -> u8
    requires { value < 16 }
    ensures { result ≡ digit_char value }
{
    if value < 10 {
        b'0' + value
    } else {
        b'a' + (value - 10)
    }
}

impl From<OutOfMemory> for Fault {
    ghost from_gives = { λ _ e. e ≡ variant.OutOfMemory };

    fn from(_error: OutOfMemory) -> Fault {
        Fault::OutOfMemory
    }
}

impl From<AllocError> for Fault {
    ghost from_gives = { λ _ e. e ≡ variant.OutOfMemory };

    fn from(_error: AllocError) -> Fault {
        Fault::OutOfMemory
    }
}

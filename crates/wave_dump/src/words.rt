// Codes, names, values and moments, as a dump has them.
ghost use Rattle.std.specs.Prelude.{◌≡◌, ◌≤◌, ◌+◌, ◌++◌, length, false};
ghost use Rattle.fm_shelf.specs.Sink.{Sends};
ghost use Rattle.wave_dump.specs.Dump.{code_within, identifier_code, moment, value_line};
ghost use Rattle.wave_dump.specs.Steps.{backslash};

use fm_base::Line;
use fm_shelf::shelf::{Failed, Sink};
use fm_shelf::whole::write_all;

// How many characters a code may have.
const MOST: u32 = 3;

// Adds the code of a variable, in so many characters at most.
fn put_code(line: &mut Line, most: u32, n: u32)
    requires { length line.old + most ≤ 160 }
    ensures code { line.new ≡ line.old ++ code_within most n }
    ensures len { length line.new ≤ length line.old + most }
{
    if most > 0 {
        line.put(&[33 + (n % 94) as u8]);
        if n >= 94 {
            put_code(line, most - 1, n / 94 - 1);
        }
    }
}

/// The code of a variable.
pub(crate) fn code_of(n: u32) -> Line
    ensures { result ≡ identifier_code n }
{
    let mut code = Line::new();
    put_code(&mut code, MOST, n);
    code
}

/// The backslash that stands before a name, where it needs one.
pub(crate) fn backslash_of(name: &[u8]) -> &[u8]
    ensures { result.now ≡ backslash name.now }
{
    match name.first() {
        Some(b'$' | b'\\') => b"\\",
        _ => b"",
    }
}

/// Writes the value of a variable.
pub(crate) fn write_value<O: Sink>(variable: u32, bit: bool, out: &mut O) -> Result<(), Failed>
    ensures { Sends (O.seen out.old) (O.seen out.new) (value_line variable bit) result }
{
    let mut line = Line::new();
    line.put(if bit { b"1" } else { b"0" });
    put_code(&mut line, MOST, variable);
    line.put(b"\n");
    write_all(out, line.bytes())
}

/// Writes the moment at which a cycle begins.
pub(crate) fn write_moment<O: Sink>(t: u32, out: &mut O) -> Result<(), Failed>
    ensures { Sends (O.seen out.old) (O.seen out.new) (moment t) result }
{
    let mut line = Line::new();
    line.put(b"#");
    line.put_dec(u64::from(t));
    line.put(b"\n");
    write_all(out, line.bytes())
}

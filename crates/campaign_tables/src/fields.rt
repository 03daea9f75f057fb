// Fields of a CSV text, as they go out.
ghost use Rattle.std.specs.Prelude.{◌≡◌, ◌∷◌, ◌++◌, [], flat_map};
ghost use Rattle.std.specs.List.{list_any};
ghost use Rattle.std.specs.Str.{byte};
ghost use Rattle.fm_shelf.specs.Sink.{Sends};
ghost use Rattle.campaign_tables.specs.Csv.{csv_field};
ghost use Rattle.campaign_tables.specs.FaultSteps.{between_quotes, calls_for_quotes as calls};

use fm_shelf::shelf::{Failed, Sink};
use fm_shelf::whole::{write_all, write_pieces};

// Whether a byte calls for quotes.
fn calls_for_quotes(byte: u8) -> bool
    ensures { result ≡ calls byte }
{
    byte == b',' || byte == b'"' || byte == b'\r' || byte == b'\n'
}

// Whether some byte of a piece does.
fn has_special(piece: &[u8]) -> bool
    ensures { result ≡ list_any calls piece.now }
{
    piece.iter().any(|byte| calls_for_quotes(*byte))
}

// Whether some byte of the pieces does.
fn is_quoted(pieces: &[&[u8]]) -> bool
    ensures { result ≡ list_any (λ piece. list_any calls piece.now) pieces.now }
{
    pieces.iter().any(|piece| has_special(piece))
}

// Writes a byte between quotes.
fn write_byte<O: Sink>(byte: u8, out: &mut O) -> Result<(), Failed>
    ensures { Sends (O.seen out.old) (O.seen out.new) (between_quotes byte) result }
{
    if byte == b'"' {
        write_all(out, b"\"\"")
    } else {
        write_all(out, &[byte])
    }
}

// Writes a piece between quotes.
fn write_bytes<O: Sink>(piece: &[u8], out: &mut O) -> Result<(), Failed>
    ensures { Sends (O.seen out.old) (O.seen out.new)
        (flat_map between_quotes piece.now) result }
{
    for byte in piece {
        write_byte(*byte, out)?;
    }
    Ok(())
}

// Writes pieces between quotes, one after the other.
fn write_within<O: Sink>(pieces: &[&[u8]], out: &mut O) -> Result<(), Failed>
    ensures { Sends (O.seen out.old) (O.seen out.new)
        (flat_map (λ piece. flat_map between_quotes piece.now) pieces.now) result }
{
    for piece in pieces {
        write_bytes(piece, out)?;
    }
    Ok(())
}

// Writes pieces as one field in quotes.
fn write_quoted<O: Sink>(pieces: &[&[u8]], out: &mut O) -> Result<(), Failed>
    ensures { Sends (O.seen out.old) (O.seen out.new)
        (byte "\"" ∷ flat_map (λ piece. flat_map between_quotes piece.now) pieces.now ++ byte "\"" ∷ []) result }
{
    write_all(out, b"\"")?;
    write_within(pieces, out)?;
    write_all(out, b"\"")
}

/// Writes pieces as one field, in quotes where one of its bytes calls for them.
pub(crate) fn write_field<O: Sink>(pieces: &[&[u8]], out: &mut O) -> Result<(), Failed>
    ensures { Sends (O.seen out.old) (O.seen out.new)
        (csv_field (flat_map (λ piece. piece.now) pieces.now)) result }
{
    if is_quoted(pieces) {
        write_quoted(pieces, out)
    } else {
        write_pieces(out, pieces)
    }
}

// Writes a comma and a field.
fn write_next<O: Sink>(field: &[u8], out: &mut O) -> Result<(), Failed>
    ensures { Sends (O.seen out.old) (O.seen out.new)
        (byte "," ∷ csv_field field.now) result }
{
    write_all(out, b",")?;
    write_field(&[field], out)
}

/// Writes fields with a comma before each.
pub fn write_fields<O: Sink>(fields: &[&[u8]], out: &mut O) -> Result<(), Failed>
    ensures { Sends (O.seen out.old) (O.seen out.new)
        (flat_map (λ field. byte "," ∷ csv_field field.now) fields.now) result }
{
    for field in fields {
        write_next(field, out)?;
    }
    Ok(())
}

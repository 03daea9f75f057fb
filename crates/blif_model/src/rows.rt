// Rows of tables.
ghost use Rattle.std.specs.Prelude.{◌≡◌};
ghost use Rattle.std.specs.List.{list_all};
ghost use Rattle.fm_base.specs.Text.{is_bit};
ghost use Rattle.blif_model.specs.LineFault.{is_row_of, row_output};
ghost use Rattle.blif_model.specs.LineSteps.{is_cell};
ghost use Rattle.blif_model.specs.Tokens.{texts_of};

use blif_text::token::Token;

fn is_one_bit(text: &[u8]) -> bool
    ensures { result ≡ is_bit text.now }
{
    text == b"0".as_slice() || text == b"1".as_slice()
}

fn are_cells(text: &[u8]) -> bool
    ensures { result ≡ list_all is_cell text.now }
{
    text.iter().all(|b| *b == b'0' || *b == b'1' || *b == b'-')
}

/// The tokens are a row for so many inputs.
pub fn is_row(count: usize, tokens: &[Token<'_>]) -> bool
    ensures { result ≡ is_row_of count (texts_of tokens.now) }
{
    match tokens {
        [output] => count == 0 && is_one_bit(output.text),
        [cells, output] => {
            0 < count
                && cells.text.len() == count
                && are_cells(cells.text)
                && is_one_bit(output.text)
        }
        _ => false,
    }
}

/// The output of a row, which is its last token.
pub fn output_of<'a>(tokens: &[Token<'a>]) -> &'a [u8]
    ensures { result.now ≡ row_output (texts_of tokens.now) }
{
    match tokens {
        [] => b"",
        [output] => output.text,
        [_, output, ..] => output.text,
    }
}

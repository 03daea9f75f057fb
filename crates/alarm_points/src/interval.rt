// The interval that a row of a points file gives.
ghost use Rattle.std.specs.Prelude.{◌≡◌};
ghost use Rattle.alarm_points.specs.PointsFile.{interval_read};
ghost use Rattle.alarm_points.specs.PointsSteps.{is_dash_field as is_dash_text};

use fm_base::field::plain_number;

const MOST_CYCLES: u32 = 4096;

/// Whether a text is a dash, which stands for none.
pub(crate) fn is_dash(text: &[u8]) -> bool
    ensures { result ≡ is_dash_text text.now }
{
    text == b"-".as_slice()
}

/// The interval of a text: a dash, for none, or a number of cycles. Other texts give nothing.
pub(crate) fn interval_of(text: &[u8]) -> Option<Option<u32>>
    ensures { result ≡ interval_read text.now }
{
    if is_dash(text) {
        Some(None)
    } else {
        Some(Some(plain_number(text, MOST_CYCLES)?))
    }
}

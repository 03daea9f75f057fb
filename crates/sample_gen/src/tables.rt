// The rates and the points.
ghost use Rattle.std.specs.Prelude.{◌≡◌};
ghost use Rattle.sample_gen.specs.Sample.{points_text as points_of, rates_text as rates_of};

/// The rates of the generated campaign: a part for the input, a mission part that is covered, and a mechanism that checks it.
pub fn rates_text() -> &'static [u8]
    ensures { result.now ≡ rates_of }
{
    b"pattern,part,role,covered,permanent,transient\nd,in,mission,no,1,0\nq,main,mission,yes,6,3\nm*,main,mission,yes,6,3\na*,main,mission,yes,6,3\n*,shadow,mechanism,no,6,3\n"
}

/// The points of the generated campaign: the mission's end is observed, and the comparison is the alarm.
pub fn points_text() -> &'static [u8]
    ensures { result.now ≡ points_of }
{
    b"kind,net\nobserve,q\nalarm,e\n"
}

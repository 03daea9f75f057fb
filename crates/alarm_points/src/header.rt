// What a row of a points file says, under each of the two headers.
ghost use Rattle.std.specs.Prelude.{◌≡◌, ◌∷◌, [], codes};
ghost use Rattle.csv_rows.specs.Rows.{is_row as is_row_of};
ghost use Rattle.alarm_points.specs.PointsSteps.{header_of, width_of, goal_in, interval_in, kind_in, net_in, is_observe as observes, is_alarm as alarms, same_goal_under as of_one_goal, same_point as of_one_point};

use csv_rows::Row;

/// The two headers that a points file may have.
#[derive(Clone, Copy)]
pub(crate) enum Header {
    /// `kind,net`: there is one goal, without a name and without an interval of its own.
    OneGoal,
    /// `goal,ftti,kind,net`: each `observe` row names its goal and the goal's interval.
    NamedGoals,
}

fn is_one_goal(row: &Row) -> bool
    ensures { result ≡ is_row_of (codes "kind" ∷ codes "net" ∷ []) row.now }
{
    row.is_row(&[b"kind", b"net"])
}

fn is_named_goals(row: &Row) -> bool
    ensures { result ≡ is_row_of (codes "goal" ∷ codes "ftti" ∷ codes "kind" ∷ codes "net" ∷ []) row.now }
{
    row.is_row(&[b"goal", b"ftti", b"kind", b"net"])
}

impl Header {
    /// The header that a row is, if it is one.
    pub(crate) fn of(row: &Row) -> Option<Header>
        ensures { result ≡ header_of row.now }
    {
        if is_one_goal(row) {
            Some(Header::OneGoal)
        } else if is_named_goals(row) {
            Some(Header::NamedGoals)
        } else {
            None
        }
    }

    /// The number of fields of each row.
    pub(crate) fn width(self) -> usize
        ensures { result ≡ width_of self }
    {
        match self {
            Header::OneGoal => 2,
            Header::NamedGoals => 4,
        }
    }

    /// The name of a row's goal.
    pub(crate) fn goal<'a>(self, row: &'a Row) -> &'a [u8]
        ensures { result.now ≡ goal_in self row.now }
    {
        match self {
            Header::OneGoal => &[],
            Header::NamedGoals => row.field(0),
        }
    }

    /// The interval that a row gives.
    pub(crate) fn interval<'a>(self, row: &'a Row) -> &'a [u8]
        ensures { result.now ≡ interval_in self row.now }
    {
        match self {
            Header::OneGoal => b"-",
            Header::NamedGoals => row.field(1),
        }
    }

    fn kind<'a>(self, row: &'a Row) -> &'a [u8]
        ensures { result.now ≡ kind_in self row.now }
    {
        match self {
            Header::OneGoal => row.field(0),
            Header::NamedGoals => row.field(2),
        }
    }

    /// The name of a row's net.
    pub(crate) fn net<'a>(self, row: &'a Row) -> &'a [u8]
        ensures { result.now ≡ net_in self row.now }
    {
        match self {
            Header::OneGoal => row.field(1),
            Header::NamedGoals => row.field(3),
        }
    }

    /// Whether a row names an observation point.
    pub(crate) fn is_observe(self, row: &Row) -> bool
        ensures { result ≡ observes self row.now }
    {
        self.kind(row) == b"observe".as_slice()
    }

    /// Whether a row names an alarm point.
    pub(crate) fn is_alarm(self, row: &Row) -> bool
        ensures { result ≡ alarms self row.now }
    {
        self.kind(row) == b"alarm".as_slice()
    }

    /// Whether two rows name one goal.
    pub(crate) fn same_goal(self, a: &Row, b: &Row) -> bool
        ensures { result ≡ of_one_goal self a.now b.now }
    {
        self.goal(a) == self.goal(b)
    }

    /// Whether two rows have one goal, one kind and one net.
    pub(crate) fn same_point(self, a: &Row, b: &Row) -> bool
        ensures { result ≡ of_one_point self a.now b.now }
    {
        self.same_goal(a, b) && self.kind(a) == self.kind(b) && self.net(a) == self.net(b)
    }
}

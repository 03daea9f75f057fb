// The calls of a command on its shelf, and what a failing one leaves.

/// A call on the shelf.
#[derive(Clone, Copy)]
pub enum Step {
    /// A read of an input.
    Read(&'static str),
    /// The result file is cut to so many bytes.
    Cut(usize),
    /// So many bytes are added to it.
    Append(usize),
}

/// A command, what the result file holds before it, what it does on the shelf in order, and what it leaves and writes where no
/// call fails.
#[derive(Clone, Copy)]
pub struct Course<'a> {
    pub line: &'a str,
    pub before: &'a [u8],
    pub steps: &'a [Step],
    pub after: &'a [u8],
    pub text: &'a [u8],
}

/// Such a course.
pub fn course_of<'a>(
    line: &'a str,
    before: &'a [u8],
    steps: &'a [Step],
    after: &'a [u8],
    text: &'a [u8],
) -> Course<'a> {
    Course {
        line,
        before,
        steps,
        after,
        text,
    }
}

fn prefix(bytes: &[u8], len: usize) -> &[u8] {
    &bytes[..len.min(bytes.len())]
}

impl<'a> Course<'a> {
    /// The exit status and the line of a refusal where this step fails.
    pub fn refusal(&self, step: Step) -> (u8, &'static str) {
        match step {
            Step::Read("net") => (20, "refused: cannot read net\n"),
            Step::Read("work") => (20, "refused: cannot read work\n"),
            Step::Read("rates") => (20, "refused: cannot read rates\n"),
            Step::Read("points") => (20, "refused: cannot read points\n"),
            Step::Read(_) => (20, "refused: cannot read RES\n"),
            Step::Cut(_) | Step::Append(_) => (21, "refused: cannot write RES\n"),
        }
    }

    /// What the result file holds where the step of this number, from 0, fails, having taken so many bytes.
    pub fn held(&self, number: usize, taken: usize) -> &'a [u8] {
        let mut len = None;
        for (i, step) in self.steps.iter().enumerate() {
            if i > number {
                break;
            }
            let failed = i == number;
            match step {
                Step::Cut(to) if !failed || taken > 0 => len = Some(*to),
                Step::Append(bytes) => {
                    let done = if failed { taken.min(*bytes) } else { *bytes };
                    len = Some(len.unwrap_or(0).saturating_add(done));
                }
                Step::Read(_) | Step::Cut(_) => {}
            }
        }
        match len {
            Some(len) => prefix(self.after, len),
            None => self.before,
        }
    }
}

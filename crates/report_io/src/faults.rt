// Why a text is no report.
use instance_io::InstanceFault;
use solution_io::SolutionFault;

/// Why a text isn't read as a report: the number of its lines, or the first fault of the first faulty line. The faults of
/// each line stand in the order in which they are looked for. (This project's own.)
#[derive(Debug, Drop, PartialEq, Eq)]
pub enum ReportFault {
    /// The text hasn't five lines; it shows how many. An empty last line is none.
    Lines(u32),
    /// Line 1 is no instance.
    Instance(InstanceFault),
    /// Line 2 is no object, or its `instance_name` is missing or no string.
    NoSolutionName,
    /// Line 2 is no solution over the points of the instance. `NotJson` comes before `NoSolutionName`, the others after it.
    Solution(SolutionFault),
    /// Line 3 is no certificate.
    Certificate(CertLine),
    /// Line 4 is no journal.
    Journal(JournalLine),
    /// Line 5 is no summary.
    Summary(SummaryLine),
    /// Memory was not found. No other variant says so.
    NoMemory,
}

/// Why line 3 is no certificate.
#[derive(Clone, Copy, Debug, PartialEq, Eq)]
pub enum CertLine {
    /// The line has more than 64 levels, or no reading as JSON.
    NotJson,
    /// The reading isn't an object, or its `q` isn't a number from 0 to 1,000,000.
    NoQ,
    /// The `rows` are missing or no array.
    NoRows,
    /// The least place of an item that is no row with indices of points and a weight from 0 to 1,000,000,000,000.
    BadRow(u32),
    /// The `value` isn't a number from 0 on.
    NoValue,
}

/// Why line 4 is no journal.
#[derive(Clone, Copy, Debug, PartialEq, Eq)]
pub enum JournalLine {
    /// The line has more than 64 levels, or no reading as JSON.
    NotJson,
    /// The reading isn't an object, or its `start` is missing or no array.
    NoStart,
    /// The start has more than 20,000 pairs; it shows how many.
    TooManyStart(u32),
    /// The least place of an item that is no array of two different indices of points.
    BadStart(u32),
    /// The `commits` are missing or no array.
    NoCommits,
    /// There are more than 200,000 commits; it shows how many.
    TooManyCommits(u32),
    /// The least place of an item that isn't a caller from 0 to 16, a number from 1 to 4,294,967,295 and 1 to 8 edits.
    BadCommit(u32),
}

/// Why line 5 is no summary.
#[derive(Clone, Copy, Debug, PartialEq, Eq)]
pub enum SummaryLine {
    /// The line has more than 64 levels, or no reading as JSON.
    NotJson,
    /// The first field, in the order of `Field`, that is missing or of another form. The cost is looked at in version 2
    /// alone.
    BadField(Field),
}

/// The fields of a summary, in the order of their keys.
#[derive(Clone, Copy, Debug, PartialEq, Eq)]
pub enum Field {
    Bound,
    Commits,
    Cost,
    Edges,
    Gap,
    Optimal,
    Version,
}

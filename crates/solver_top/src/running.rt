// The run of the program, in phases: words, input, work, text, write.
ghost use Rattle.std.specs.Prelude.{◌≡◌, ◌≢◌, ◌≤◌, ◌<◌, ◌+◌, ◌⊎◌, ℕ, List, [], length, codes, true, false, Some, IsOk};
ghost use Rattle.std.specs.Prelude.{IfOk, IfErr, IsErrOf};
ghost use Rattle.std.specs.Io.KnownBytes.{Appends};
ghost use Rattle.mcp_outside.specs.Causes.{Rose};
ghost use Rattle.mcp_outside.specs.Bytes.{AppendsPrefix, Took};
ghost use Rattle.plane.specs.declared.coordinates.Point.{Point};
ghost use Rattle.plane.specs.declared.segment.Pair.{Pair};
ghost use Rattle.partition_defs.specs.Partition.{IsConvexPartition};
ghost use Rattle.partition_defs.specs.Triangulation.{AreDistinct};
ghost use Rattle.generator.specs.declared.kinds.Kind.{Kind};
ghost use Rattle.solve_report.specs.Headline.{IsConvexThroughout, IsLastAndMinimal, NoneIsBelowBound, TellsOptimal};
ghost use Rattle.solve_report.specs.Texts.{IsSolvedLine};
ghost use Rattle.solver_top.specs.Words.{words_of, IsLineOf, IsNoLine};
ghost use Rattle.solver_top.specs.Bundles.{HasBundle};
ghost use Rattle.solver_top.specs.Lines.{usage_line, judgement_line};
ghost use Rattle.solver_top.specs.Statuses.{status_of, HasText, IsWritten};
ghost use Rattle.solver_top.specs.Answers.{IsAnswer, IsAnswerOf, IsAnswerTo, ReadsAll, IsUsageText, IsInRange};
ghost use Rattle.solver_top.specs.Answers.{HasInput, reads_input, most_input};
ghost use Rattle.solver_top.specs.Judging.{IsJudged};
ghost use Rattle.solver_top.specs.Starting.{IsStarted};
ghost use Rattle.solver_top.specs.Solving.{IsSolveAnswer, IsSolvedFrom, Reports};
ghost use Rattle.solver_top.specs.Checking.{IsCheckAnswer, IsPartAnswer, IsRewindAnswer, TellsReport};
ghost use Rattle.solver_top.specs.Editing.{IsEditAnswer};
ghost use Rattle.solver_top.specs.Weaving.{IsWeaveAnswer};
ghost use Rattle.solver_top.specs.Generating.{IsGenerated};
ghost use Rattle.report_io.specs.declared.report.Part.{Part as ReportPart};

use crate::answers::Answer;
use crate::commands::checking::{checked, parted, rewound_to};
use crate::commands::editing::edited;
use crate::commands::generating::generated;
use crate::commands::judging::judged;
use crate::commands::solving::{solved, solved_made};
use crate::commands::starting::started;
use crate::commands::weaving::woven;
use crate::lines::usage_line;
use crate::status::{Status, Verdict};
use crate::words::{Command, read_words};
use cp_judge::Judgement;
use mcp_outside::{Gate, NoMemory, ReadEnd, Sink, Source, Steps, read_all, write_all};
use solve_report::Search;
use std::alloc::Global;
use std::marker::Brand;
use std::sync::ledger::{Blank, Ledger};
use std::thread::Threads;

/// The greatest input, in bytes. (This project's own.)
pub const MOST_INPUT: usize = 33_554_432;

// Why no answer was made.
#[derive(Clone, Copy, Debug, PartialEq, Eq)]
enum Halt {
    ReadFault,
    NoMemory,
}

// What the program answers to its words and its input.
fn answer<R: Threads + Sync, I: Source, G: Gate + Sync>(
    rt: &R,
    alloc: Global,
    words: &[String],
    input: &mut I,
    gate: &G,
) -> Result<Answer, Halt>
    ensures later { I.faults input.old ≤ I.faults input.new }
    ensures failed { IsErrOf result Halt.ReadFault → Rose (I.faults input.old) (I.faults input.new) }
    ensures kept { ¬ IsErrOf result Halt.ReadFault → I.faults input.new ≡ I.faults input.old }
    ensures answer { (xs : List ℕ) → I.left input.old ≡ Some xs → IfOk result (λ answer.
        IsAnswer (words_of words.now) xs (I.left input.new) answer.verdict answer.text.items) }
    ensures usage { IsNoLine (words_of words.now) → (input.new ≡ input.old) × IfOk result (λ answer.
        (answer.verdict ≡ Verdict.Usage) × IsUsageText (words_of words.now) answer.text.items) }
    ensures alone { (command : Command) → IsLineOf (words_of words.now) command → reads_input command ≡ false →
        (input.new ≡ input.old) × IfOk result (λ answer. IsAnswerTo command [] answer.verdict answer.text.items) }
    ensures command { (command : Command) (xs : List ℕ) → IsLineOf (words_of words.now) command →
        I.left input.old ≡ Some xs →
        IfOk result (λ answer. IsAnswerOf command xs (I.left input.new) answer.verdict answer.text.items) }
{
    match read_words(words) {
        Ok(command) => {
            command_answer::<R, I, G, Brand>(rt, alloc, command, input, gate, Blank::new(1))
        }
        Err(k) => usage_answer(alloc, k),
    }
}

// The answer to words that are no line.
fn usage_answer(alloc: Global, k: usize) -> Result<Answer, Halt>
    ensures halt { IfErr result (λ halt. halt ≡ Halt.NoMemory) }
    ensures verdict { IfOk result (λ answer. answer.verdict ≡ Verdict.Usage) }
    ensures text { IfOk result (λ answer. answer.text.items ≡ usage_line k) }
{
    match usage_line(alloc, k) {
        Ok(line) => Ok(Answer::of_line(Verdict::Usage, line)),
        Err(_) => Err(Halt::NoMemory),
    }
}

// What a command answers to its input, under a ledger of its own for the calls of the source.
fn command_answer<R: Threads + Sync, I: Source, G: Gate + Sync, L: Ledger>(
    rt: &R,
    alloc: Global,
    command: Command,
    input: &mut I,
    gate: &G,
    blank: Blank,
) -> Result<Answer, Halt>
    requires range { IsInRange command }
    requires name { blank.name ≡ L.name }
    requires parts { blank.parts ≡ L.parts }
    requires some { 0 < blank.parts }
    ensures later { I.faults input.old ≤ I.faults input.new }
    ensures failed { IsErrOf result Halt.ReadFault → Rose (I.faults input.old) (I.faults input.new) }
    ensures kept { ¬ IsErrOf result Halt.ReadFault → I.faults input.new ≡ I.faults input.old }
    ensures alone { reads_input command ≡ false →
        (input.new ≡ input.old) × IfOk result (λ answer. IsAnswerTo command [] answer.verdict answer.text.items) }
    ensures answer { (xs : List ℕ) → I.left input.old ≡ Some xs → IfOk result (λ answer.
        IsAnswerOf command xs (I.left input.new) answer.verdict answer.text.items) }
{
    let mut steps = Steps::<L>::make(blank);
    match input_of(alloc, command, input, &mut steps) {
        Ok(bytes) => match work(rt, alloc, command, bytes.as_slice(), gate) {
            Ok(answer) => Ok(answer),
            Err(_) => Err(Halt::NoMemory),
        },
        Err(end) => unread(alloc, end),
    }
}

// The input of a command, read to its end where it reads one. Each call of `take` counts in `steps`.
fn input_of<I: Source, L: Ledger>(
    alloc: Global,
    command: Command,
    input: &mut I,
    steps: &mut Steps<L>,
) -> Result<Vec<u8>, ReadEnd>
    ensures later { I.faults input.old ≤ I.faults input.new }
    ensures failed { IsErrOf result ReadEnd.Failed → Rose (I.faults input.old) (I.faults input.new) }
    ensures kept { ¬ IsErrOf result ReadEnd.Failed → I.faults input.new ≡ I.faults input.old }
    ensures calls { steps.new ≤ steps.old + most_input + 1 }
    ensures each_took { IfOk result (λ bytes. steps.new ≤ steps.old + length bytes.items + 1) }
    ensures alone { reads_input command ≡ false → (input.new ≡ input.old) × IsOk result × IfOk result
        (λ bytes. bytes.items ≡ []) }
    ensures whole { reads_input command ≡ true → (xs : List ℕ) → I.left input.old ≡ Some xs → IfOk result (λ bytes.
        (bytes.items ≡ xs) × (length xs ≤ most_input) × (I.left input.new ≡ Some [])) }
    ensures long { reads_input command ≡ true → (xs : List ℕ) → I.left input.old ≡ Some xs →
        IsErrOf result ReadEnd.TooLong → Took (most_input + 1) xs (I.left input.new) }
{
    if command.reads_input() {
        read_all(alloc, input, MOST_INPUT, steps)
    } else {
        Ok(Vec::new(alloc))
    }
}

// What a command answers to an input that was read, or to none. Commands with workers take the runtime, and those whose
// workers share a board the gate.
fn work<R: Threads + Sync, G: Gate + Sync>(
    rt: &R,
    alloc: Global,
    command: Command,
    bytes: &[u8],
    gate: &G,
) -> Result<Answer, NoMemory>
    requires { IsInRange command }
    ensures { IfOk result (λ answer. IsAnswerTo command bytes.now answer.verdict answer.text.items) }
{
    match command {
        Command::Judge => judged(alloc, bytes),
        Command::Start => started(alloc, bytes),
        Command::Solve {
            edit_workers,
            bound_workers,
            rounds,
            seed,
        } => {
            let search = Search {
                workers: bound_workers,
                rounds,
                seed,
            };
            solved(rt, alloc, bytes, edit_workers, search, gate)
        }
        Command::Check => checked(alloc, bytes),
        Command::Part(part) => parted(alloc, bytes, part),
        Command::Weave => woven(alloc, bytes),
        Command::Rewind { commits } => rewound_to(alloc, bytes, commits),
        Command::EditSession => edited(alloc, bytes),
        Command::Gen { kind, n, seed } => generated(alloc, kind, n, seed),
        Command::GenSolve { kind, n, seed } => solved_made(rt, alloc, kind, n, seed),
    }
}

// The answer to an input that wasn't read whole, or the halt.
fn unread(alloc: Global, end: ReadEnd) -> Result<Answer, Halt>
    ensures long { IfOk result (λ answer. (end ≡ ReadEnd.TooLong) × (answer.verdict ≡ Verdict.Refused)
        × (answer.text.items ≡ codes "refused TooLong\n")) }
    ensures failed { IsErrOf result Halt.ReadFault → end ≡ ReadEnd.Failed }
    ensures fault { end ≡ ReadEnd.Failed → IsErrOf result Halt.ReadFault }
{
    match end {
        ReadEnd::TooLong => too_long(alloc),
        ReadEnd::Failed => Err(Halt::ReadFault),
        ReadEnd::NoMemory => Err(Halt::NoMemory),
    }
}

// The answer to an input that is too long.
fn too_long(alloc: Global) -> Result<Answer, Halt>
    ensures halt { IfErr result (λ halt. halt ≡ Halt.NoMemory) }
    ensures verdict { IfOk result (λ answer. answer.verdict ≡ Verdict.Refused) }
    ensures text { IfOk result (λ answer. answer.text.items ≡ codes "refused TooLong\n") }
{
    match String::from_str(alloc, "refused TooLong\n") {
        Ok(line) => Ok(Answer::of_line(Verdict::Refused, line)),
        Err(_) => Err(Halt::NoMemory),
    }
}

// Writes an answer whole, or a prefix of its text.
fn deliver<O: Sink>(answer: &Answer, out: &mut O) -> Status
    ensures later { O.faults out.old ≤ O.faults out.new }
    ensures status { (result ≡ status_of answer.now.verdict) ⊎ (result ≡ Status.WriteFault) }
    ensures whole { result ≢ Status.WriteFault →
        Appends (O.contents out.old) (O.contents out.new) answer.now.text.items }
    ensures kept { result ≢ Status.WriteFault → O.faults out.new ≡ O.faults out.old }
    ensures fault { result ≡ Status.WriteFault → Rose (O.faults out.old) (O.faults out.new) }
    ensures prefix { result ≡ Status.WriteFault →
        AppendsPrefix (O.contents out.old) (O.contents out.new) answer.now.text.items }
    ensures written { IsWritten result answer.now.verdict answer.now.text.items (O.contents out.old) (O.contents out.new) }
{
    match write_all(out, answer.text.as_slice()) {
        Ok(()) => answer.verdict.status(),
        Err(_) => Status::WriteFault,
    }
}

/// Does all that the program does: reads the words, then the input where the command reads one, then decides refusals,
/// works, and writes. All that is written is made before the first byte is given. It returns for every command. (This
/// project's own.)
pub fn run<R: Threads + Sync, I: Source, O: Sink, G: Gate + Sync>(
    rt: &R,
    alloc: Global,
    words: &[String],
    input: &mut I,
    out: &mut O,
    gate: &G,
) -> Status
    // Where the source tells its bytes, a status of a whole text is the verdict of the answer, and its text was written.
    ensures answered { (xs : List ℕ) (verdict : Verdict) → I.left input.old ≡ Some xs → result ≡ status_of verdict →
        (text : List ℕ) × IsAnswer (words_of words.now) xs (I.left input.new) verdict text
        × Appends (O.contents out.old) (O.contents out.new) text }
    // After a fault of the sink it holds a prefix of the text that the answer has.
    ensures write_fault { result ≡ Status.WriteFault → Rose (O.faults out.old) (O.faults out.new) }
    ensures prefix { (xs : List ℕ) → I.left input.old ≡ Some xs → result ≡ Status.WriteFault →
        (verdict : Verdict) × (text : List ℕ) × IsAnswer (words_of words.now) xs (I.left input.new) verdict text
        × AppendsPrefix (O.contents out.old) (O.contents out.new) text }
    ensures read_fault { result ≡ Status.ReadFault → Rose (I.faults input.old) (I.faults input.new) }
    // Every other status means that no fault came, of the sink and of the source.
    ensures written_whole { result ≢ Status.WriteFault → O.faults out.new ≡ O.faults out.old }
    ensures read_whole { result ≢ Status.ReadFault → I.faults input.new ≡ I.faults input.old }
    // Nothing was written after a fault of the source, and where memory was not found.
    ensures silent { (result ≡ Status.ReadFault) ⊎ (result ≡ Status.NoMemory) → out.new ≡ out.old }
    // Words that are no line: the position is told, and the source is left alone, whether it tells its bytes or not.
    ensures usage { IsNoLine (words_of words.now) → (input.new ≡ input.old) × (HasText result → (text : List ℕ)
        × IsUsageText (words_of words.now) text
        × IsWritten result Verdict.Usage text (O.contents out.old) (O.contents out.new)) }
    // What each command answers.
    ensures judge { (xs : List ℕ) → IsLineOf (words_of words.now) Command.Judge → I.left input.old ≡ Some xs →
        HasText result → (verdict : Verdict) × (text : List ℕ) × ReadsAll IsJudged xs (I.left input.new) verdict text
        × IsWritten result verdict text (O.contents out.old) (O.contents out.new) }
    ensures start { (xs : List ℕ) → IsLineOf (words_of words.now) Command.Start → I.left input.old ≡ Some xs →
        HasText result → (verdict : Verdict) × (text : List ℕ) × ReadsAll IsStarted xs (I.left input.new) verdict text
        × IsWritten result verdict text (O.contents out.old) (O.contents out.new) }
    ensures solve { (xs : List ℕ) (E B rounds seed : ℕ) →
        IsLineOf (words_of words.now) (Command.Solve E B rounds seed) → I.left input.old ≡ Some xs →
        HasText result → (verdict : Verdict) × (text : List ℕ)
        × ReadsAll (IsSolveAnswer E B rounds seed) xs (I.left input.new) verdict text
        × IsWritten result verdict text (O.contents out.old) (O.contents out.new) }
    ensures check { (xs : List ℕ) → IsLineOf (words_of words.now) Command.Check → I.left input.old ≡ Some xs →
        HasText result → (verdict : Verdict) × (text : List ℕ) × ReadsAll IsCheckAnswer xs (I.left input.new) verdict text
        × IsWritten result verdict text (O.contents out.old) (O.contents out.new) }
    ensures part { (xs : List ℕ) (part : ReportPart) → IsLineOf (words_of words.now) (Command.Part part) →
        I.left input.old ≡ Some xs → HasText result → (verdict : Verdict) × (text : List ℕ)
        × ReadsAll (IsPartAnswer part) xs (I.left input.new) verdict text
        × IsWritten result verdict text (O.contents out.old) (O.contents out.new) }
    ensures weave { (xs : List ℕ) → IsLineOf (words_of words.now) Command.Weave → I.left input.old ≡ Some xs →
        HasText result → (verdict : Verdict) × (text : List ℕ) × ReadsAll IsWeaveAnswer xs (I.left input.new) verdict text
        × IsWritten result verdict text (O.contents out.old) (O.contents out.new) }
    ensures rewind { (xs : List ℕ) (k : ℕ) → IsLineOf (words_of words.now) (Command.Rewind k) →
        I.left input.old ≡ Some xs → HasText result → (verdict : Verdict) × (text : List ℕ)
        × ReadsAll (IsRewindAnswer k) xs (I.left input.new) verdict text
        × IsWritten result verdict text (O.contents out.old) (O.contents out.new) }
    ensures edit { (xs : List ℕ) → IsLineOf (words_of words.now) Command.EditSession → I.left input.old ≡ Some xs →
        HasText result → (verdict : Verdict) × (text : List ℕ) × ReadsAll IsEditAnswer xs (I.left input.new) verdict text
        × IsWritten result verdict text (O.contents out.old) (O.contents out.new) }
    ensures generated_solved { (kind : Kind) (n seed : ℕ) →
        IsLineOf (words_of words.now) (Command.GenSolve kind n seed) →
        (input.new ≡ input.old) × (HasText result → (text : List ℕ) × IsSolvedLine kind n seed text
        × IsWritten result Verdict.Done text (O.contents out.old) (O.contents out.new)) }
    ensures generated { (kind : Kind) (n seed : ℕ) → IsLineOf (words_of words.now) (Command.Gen kind n seed) →
        (input.new ≡ input.old) × (HasText result → (text : List ℕ) × IsGenerated kind n seed text
        × IsWritten result Verdict.Done text (O.contents out.old) (O.contents out.new)) }
    // A convex partition is told of a bundle whose pairs, none of them twice, are one.
    ensures convex { (xs : List ℕ) → I.left input.old ≡ Some xs → IsLineOf (words_of words.now) Command.Judge →
        result ≡ Status.Done →
        (S : List Point) × (K : List Pair) × HasBundle xs S K × AreDistinct K × IsConvexPartition S K
        × (I.left input.new ≡ Some [])
        × Appends (O.contents out.old) (O.contents out.new) (judgement_line (Judgement.Convex (length K))) }
    // The headline. At Done `solve` has written the text of the report of one instance, start, journal, solution and
    // certificate: the instance is the one that was read, these are a solved instance, and the certificate is the best
    // that its bound workers find.
    ensures headline { (xs : List ℕ) (E B rounds seed : ℕ) → I.left input.old ≡ Some xs →
        IsLineOf (words_of words.now) (Command.Solve E B rounds seed) → result ≡ Status.Done →
        (I.left input.new ≡ Some [])
        × Reports (IsSolvedFrom xs E B rounds seed) (O.contents out.old) (O.contents out.new) }
    // After each beginning of the printed journal the kept segments are a convex partition.
    ensures history { (xs : List ℕ) (E B rounds seed : ℕ) → I.left input.old ≡ Some xs →
        IsLineOf (words_of words.now) (Command.Solve E B rounds seed) → result ≡ Status.Done →
        Reports IsConvexThroughout (O.contents out.old) (O.contents out.new) }
    // The printed solution is the last of them, and no segment of it can be removed.
    ensures last { (xs : List ℕ) (E B rounds seed : ℕ) → I.left input.old ≡ Some xs →
        IsLineOf (words_of words.now) (Command.Solve E B rounds seed) → result ≡ Status.Done →
        Reports IsLastAndMinimal (O.contents out.old) (O.contents out.new) }
    // No convex partition costs less than the printed bound.
    ensures bound { (xs : List ℕ) (E B rounds seed : ℕ) → I.left input.old ≡ Some xs →
        IsLineOf (words_of words.now) (Command.Solve E B rounds seed) → result ≡ Status.Done →
        Reports NoneIsBelowBound (O.contents out.old) (O.contents out.new) }
    // Optimal is printed exactly where the solution costs what the bound says.
    ensures optimal { (xs : List ℕ) (E B rounds seed : ℕ) → I.left input.old ≡ Some xs →
        IsLineOf (words_of words.now) (Command.Solve E B rounds seed) → result ≡ Status.Done →
        Reports TellsOptimal (O.contents out.old) (O.contents out.new) }
    // At Done `check` has read a report whose solution is a convex partition from which no segment can be removed, and the
    // end of its journal; no convex partition costs less than its bound.
    ensures told { (xs : List ℕ) → I.left input.old ≡ Some xs → IsLineOf (words_of words.now) Command.Check →
        result ≡ Status.Done →
        (I.left input.new ≡ Some []) × TellsReport xs (O.contents out.old) (O.contents out.new) }
    // Words that are a line and an input that has its reading are answered by Done or No, where nothing fails.
    ensures complete { (xs : List ℕ) (command : Command) → I.left input.old ≡ Some xs →
        IsLineOf (words_of words.now) command →
        HasInput command xs → ¬ Rose (I.faults input.old) (I.faults input.new) →
        ¬ Rose (O.faults out.old) (O.faults out.new) →
        result ≢ Status.NoMemory → (result ≡ Status.Done) ⊎ (result ≡ Status.No) }
    ensures later { (I.faults input.old ≤ I.faults input.new) × (O.faults out.old ≤ O.faults out.new) }
{
    match answer(rt, alloc, words, input, gate) {
        Ok(answer) => deliver(&answer, out),
        Err(Halt::ReadFault) => Status::ReadFault,
        Err(Halt::NoMemory) => Status::NoMemory,
    }
}

// The words of the command line, out of what the machine gives.
ghost use Rattle.std.specs.Prelude.{◌≡◌, drop};

/// The words behind the program's name, which the machine gives first.
pub fn words_after_name(arguments: &[String]) -> &[String]
    ensures { result.now ≡ drop 1 arguments.now }
{
    match arguments {
        [] => arguments,
        [_, words @ ..] => words,
    }
}

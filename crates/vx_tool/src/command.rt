//! What the words of the command line ask for.
ghost use Rattle.std.specs.Prelude.{◌≡◌, map, string_bytes};
ghost use Rattle.vx_tool.specs.Words.{is_run as is_run_spec};

/// Whether the words ask for a run: there are none, or `run` alone.
pub fn is_run(words: &[String]) -> bool
    ensures { result ≡ is_run_spec (map string_bytes words.now) }
{
    match words {
        [] => true,
        [word] => word.as_str() == "run",
        _ => false,
    }
}

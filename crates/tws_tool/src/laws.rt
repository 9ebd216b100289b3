//! What holds for the commands, whatever they read. These functions do nothing: their contracts are theorems.

ghost use Rattle.std.specs.Prelude.{◌≡◌, [], ◌∷◌, codes, None, true, false};
ghost use Rattle.clap.specs.declared.error.kind.ErrorKind.TheVariants.{DisplayVersion};
ghost use Rattle.show_commands.specs.declared.show.ShowArguments.{ShowArguments};
ghost use Rattle.tws_tool.specs.CommandLine.{AskFor, AskWhy, ListsInput};
ghost use Rattle.file_commands.specs.declared.file_job.FileJob.TheVariants.{Pack, Show};
ghost use Rattle.tws_tool.specs.declared.job.Job.TheVariants.{Files, Serve};
ghost use Rattle.command_line.specs.declared.source.Source.TheVariants.{Standard};

/// What these arguments ask for: `show`, `show --moves`, `show --csv`, `pack -`, `serve`, `serve` with a port and turns,
/// `--version` and `-V`.
pub fn words_of_commands()
    ensures show { (arguments : ShowArguments) → ListsInput false false arguments → AskFor (codes "show" ∷ []) (Files (Show arguments)) }
    ensures moves { (arguments : ShowArguments) → ListsInput true false arguments → AskFor (codes "show" ∷ codes "--moves" ∷ []) (Files (Show arguments)) }
    ensures csv { (arguments : ShowArguments) → ListsInput false true arguments → AskFor (codes "show" ∷ codes "--csv" ∷ []) (Files (Show arguments)) }
    ensures pack { AskFor (codes "pack" ∷ codes "-" ∷ []) (Files (Pack (record { source = Standard; output = None }))) }
    ensures serve { AskFor (codes "serve" ∷ []) (Serve (record { port = 6969; turns = 1000000000; per_host = 32; limit = 33553919; address = None; put_from = None; ports = None; dir = None; any_solution = false; log = false; history = None; history_limit = 10000000000 })) }
    ensures counted { AskFor (codes "serve" ∷ codes "--port" ∷ codes "80" ∷ codes "--turns=5" ∷ []) (Serve (record { port = 80; turns = 5; per_host = 32; limit = 33553919; address = None; put_from = None; ports = None; dir = None; any_solution = false; log = false; history = None; history_limit = 10000000000 })) }
    ensures version { AskWhy (codes "--version" ∷ []) DisplayVersion }
    ensures short { AskWhy (codes "-V" ∷ []) DisplayVersion }
{}

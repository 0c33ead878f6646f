//! Worked words, and that the definition of the command is what `clap` states of this command line.

ghost use Rattle.std.specs.Prelude.{◌≡◌, ◌<◌, ◌≤◌, ◌^◌, ℕ, List, [], ◌∷◌, codes, decimal};
ghost use Rattle.std.specs.Prelude.{Some, None, true, false};
ghost use Rattle.zx_words.specs.declared.words.Command.TheVariants.{Optimise, Reduce, Flow, Graph, Compile, Teleport, Same, Generate};
ghost use Rattle.zx_words.specs.Command.{Text, command_of, numeral_in};
ghost use Rattle.zx_words.specs.CommandLine.{clap_command_of};

/// What some words give.
pub fn worked_words()
    ensures plain { command_of (codes "opt" ∷ []) ≡ Some (Optimise false false false) }
    ensures flags { command_of (codes "opt" ∷ codes "--report" ∷ codes "--best" ∷ [])
        ≡ Some (Optimise true true false) }
    ensures scalar { command_of (codes "opt" ∷ codes "--report" ∷ codes "--scalar" ∷ codes "--best"
        ∷ []) ≡ Some (Optimise true true true) }
    ensures scalar_twice { command_of (codes "opt" ∷ codes "--scalar" ∷ codes "--best"
        ∷ codes "--scalar" ∷ []) ≡ None }
    ensures twice { command_of (codes "opt" ∷ codes "--best" ∷ codes "--best" ∷ []) ≡ None }
    ensures valued { command_of (codes "opt" ∷ codes "--best=true" ∷ []) ≡ None }
    ensures no_word { command_of [] ≡ None }
    ensures further { command_of (codes "opt" ∷ codes "x" ∷ []) ≡ None }
    ensures help { command_of (codes "--help" ∷ []) ≡ None }
    ensures separator { command_of (codes "opt" ∷ codes "--best" ∷ codes "--" ∷ [])
        ≡ Some (Optimise true false false) }
    ensures behind { command_of (codes "opt" ∷ codes "--" ∷ codes "--best" ∷ []) ≡ None }
    ensures reduce { command_of (codes "reduce" ∷ []) ≡ Some Reduce }
    ensures flow { command_of (codes "flow" ∷ []) ≡ Some Flow }
    ensures graph { command_of (codes "graph" ∷ []) ≡ Some Graph }
    ensures compile { command_of (codes "compile" ∷ []) ≡ Some Compile }
    ensures same { command_of (codes "same" ∷ []) ≡ Some Same }
    ensures teleport { command_of (codes "teleport" ∷ []) ≡ Some Teleport }
    ensures teleport_end { command_of (codes "teleport" ∷ codes "--" ∷ []) ≡ Some Teleport }
    ensures teleport_flag { command_of (codes "teleport" ∷ codes "--report" ∷ []) ≡ None }
    ensures help_of_opt { command_of (codes "opt" ∷ codes "--help" ∷ []) ≡ None }
{}

/// What some words of `gen` give.
pub fn worked_numbers()
    ensures numbers { command_of (codes "gen" ∷ codes "7" ∷ codes "1" ∷ codes "0" ∷ [])
        ≡ Some (Generate 7 1 0) }
    ensures greatest { command_of (codes "gen" ∷ codes "18446744073709551615" ∷ codes "1024"
        ∷ codes "1000000" ∷ []) ≡ Some (Generate 18446744073709551615 1024 1000000) }
    ensures seed { command_of (codes "gen" ∷ codes "18446744073709551616" ∷ codes "1"
        ∷ codes "0" ∷ []) ≡ None }
    ensures no_qubits { command_of (codes "gen" ∷ codes "7" ∷ codes "0" ∷ codes "0" ∷ []) ≡ None }
    ensures qubits { command_of (codes "gen" ∷ codes "7" ∷ codes "1025" ∷ codes "0" ∷ []) ≡ None }
    ensures gates { command_of (codes "gen" ∷ codes "7" ∷ codes "1" ∷ codes "1000001" ∷ [])
        ≡ None }
    ensures zero { command_of (codes "gen" ∷ codes "01" ∷ codes "1" ∷ codes "5" ∷ []) ≡ None }
    ensures sign { command_of (codes "gen" ∷ codes "+1" ∷ codes "1" ∷ codes "5" ∷ []) ≡ None }
    ensures separator { command_of (codes "gen" ∷ codes "7" ∷ codes "--" ∷ codes "1" ∷ codes "0"
        ∷ []) ≡ Some (Generate 7 1 0) }
    ensures separators { command_of (codes "gen" ∷ codes "--" ∷ codes "7" ∷ codes "1"
        ∷ codes "--" ∷ []) ≡ None }
    ensures too_few { command_of (codes "gen" ∷ codes "7" ∷ codes "1" ∷ []) ≡ None }
    ensures too_many { command_of (codes "gen" ∷ codes "7" ∷ codes "1" ∷ codes "0" ∷ codes "0" ∷ [])
        ≡ None }
{}

/// A number is read of its decimal digits alone.
pub fn numbers_are_read_of_their_digits()
    ensures read { (most number : ℕ) → number ≤ most → number < 2 ^ 64
        → numeral_in most (decimal number) ≡ Some number }
    ensures only { (most number : ℕ) (text : Text) → numeral_in most text ≡ Some number
        → (text ≡ decimal number) × (number ≤ most) }
{}

/// Whichever the words are, what `clap` states of this command line is the command that is defined without it.
pub fn clap_agrees()
    ensures { (words : List Text) → clap_command_of words ≡ command_of words }
{}

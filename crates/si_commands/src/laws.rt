//! The laws of the words of a command line. Each function does nothing: its contract is the law.

ghost use Rattle.std.specs.Prelude.{◌≡◌, List, ℕ, [], ◌∷◌, String, codes, true};
ghost use Rattle.std.specs.declared.alloc.Global.{Global};
ghost use Rattle.si_commands.specs.About.{Shows, about_text, begins, page_asked, page_text};
ghost use Rattle.si_commands.specs.Command.{Asks, Request, form_of};
ghost use Rattle.si_commands.specs.Form.{words_of};
ghost use Rattle.si_commands.specs.declared.task.HelpPlace.TheVariants.{Before, Behind};
ghost use Rattle.si_commands.specs.declared.task.Task.{Task};
ghost use Rattle.si_commands.specs.declared.task.Topic.TheVariants.{Help};

/// Words ask for one command at most, with the same files.
pub fn words_ask_for_one_command()
    ensures { (words : List (String Global)) (a b : Request)
        → Asks words a → Asks words b → a ≡ b }
{}

/// The help shows each command, on a line with its words.
pub fn help_shows_each_command()
    ensures { (choices : List (List ℕ)) (task : Task) → Shows (about_text Help choices) task }
{}

/// For each word with which the form of a command begins there is a page, which is asked for by
/// `help` and the word, and by the word and `--help`, and it shows the command on a line with its
/// words.
pub fn pages_show_their_commands()
    ensures shown { (task : Task) (word : List ℕ) → begins word (form_of task) ≡ true
        → Shows (page_text word) task }
    ensures before { (words : List (String Global)) (task : Task) (word : List ℕ)
        → begins word (form_of task) ≡ true → words_of words ≡ codes "help" ∷ word ∷ []
        → Asks words (page_asked Before word) }
    ensures behind { (words : List (String Global)) (task : Task) (word : List ℕ)
        → begins word (form_of task) ≡ true → words_of words ≡ word ∷ codes "--help" ∷ []
        → Asks words (page_asked Behind word) }
{}

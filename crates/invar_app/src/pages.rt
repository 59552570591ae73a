// `help`, `--help` and `--version`: the pages that they show, and which arguments ask for which.
ghost use Rattle.std.specs.Prelude.{◌≡◌, IfOk, map, string_bytes};
ghost use Rattle.machines.specs.Journal.{Journal};
ghost use Rattle.io_edge.specs.Outside.{FilesView};
ghost use Rattle.io_edge.specs.Change.{◌⟶◌};
ghost use Rattle.io_edge.specs.Outcome.{Obeys};
ghost use Rattle.invar_app.specs.HelpPages.{page_named, page_behind_help, page_alone, head_of, body_of};
ghost use Rattle.invar_app.specs.HelpClauses.{course, page_answer};
ghost use Rattle.io_edge.specs.Views.{answer_view};

use io_edge::{Answer, Status, reply};
use std::alloc::{AllocError, Global};

/// Answers with the page that is asked for; with none where none is. It reads no file.
pub(crate) fn show(alloc: Global, request: Option<Page>) -> Result<Option<Answer>, AllocError>
    ensures { (files : FilesView) (m : Journal)
        → Obeys course request (files ⟶ files) (m ⟶ m) result }
{
    match request {
        Some(page) => reply(page.answer(alloc)),
        None => Ok(None),
    }
}

/// A page of help: the overview, the version, or that of a command.
#[derive(Clone, Copy)]
pub enum Page {
    Overview,
    Version,
    Basis,
    Member,
    Decide,
    Prove,
    Counter,
    Cert,
    Check,
    Full,
    CheckFull,
    CheckProof,
    Run,
    Chain,
    ChainRun,
    Relations,
    Gen,
}

impl Page {
    /// The page that the arguments behind `help` ask for; none where they ask for none.
    pub(crate) fn behind_help(arguments: &[String]) -> Option<Page>
        ensures { result ≡ page_behind_help (map string_bytes arguments.now) }
    {
        match arguments {
            [] => Some(Page::Overview),
            [name] => Page::named(name),
            _ => None,
        }
    }

    /// This page, where no words are behind the one that asks for it.
    pub(crate) fn alone(self, arguments: &[String]) -> Option<Page>
        ensures { result ≡ page_alone self (map string_bytes arguments.now) }
    {
        match arguments {
            [] => Some(self),
            _ => None,
        }
    }

    /// The page of the command of this name.
    fn named(name: &String) -> Option<Page>
        ensures { result ≡ page_named (string_bytes name.now) }
    {
        match name.as_str() {
            "basis" => Some(Page::Basis),
            "member" => Some(Page::Member),
            "decide" => Some(Page::Decide),
            "prove" => Some(Page::Prove),
            "counter" => Some(Page::Counter),
            "cert" => Some(Page::Cert),
            "check" => Some(Page::Check),
            "full" => Some(Page::Full),
            "checkfull" => Some(Page::CheckFull),
            "checkproof" => Some(Page::CheckProof),
            "run" => Some(Page::Run),
            "chain" => Some(Page::Chain),
            "chainrun" => Some(Page::ChainRun),
            "relations" => Some(Page::Relations),
            "gen" => Some(Page::Gen),
            _ => None,
        }
    }

    /// The first part of the text: of a command its arguments.
    fn head(&self) -> &'static str
        ensures { result.now ≡ head_of self.now }
    {
        match self {
            Page::Overview => LOOP_COMMANDS,
            Page::Version => VERSION,
            Page::Basis => "invar basis [--budget N] [--degree D] LOOP\n",
            Page::Member => "invar member [--budget N] LOOP EQUATION\n",
            Page::Decide => "invar decide [--budget N] LOOP EQUATION\n",
            Page::Prove => "invar prove [--budget N] LOOP EQUATION\n",
            Page::Counter => "invar counter [--length N] LOOP EQUATION\n",
            Page::Cert => "invar cert [--budget N] [--degree D] LOOP\n",
            Page::Check => "invar check LOOP CERT\n",
            Page::Full => "invar full [--budget N] LOOP\n",
            Page::CheckFull => "invar checkfull LOOP CERT\n",
            Page::CheckProof => "invar checkproof PROGRAM CERT\n",
            Page::Run => "invar run LOOP WORD VALUES\n",
            Page::Chain => "invar chain [--budget N] CHAIN\n",
            Page::ChainRun => "invar chainrun CHAIN WORDS VALUES\n",
            Page::Relations => "invar relations [--budget N] FILE\n",
            Page::Gen => "invar gen NUMBER\n",
        }
    }

    /// The other part: of a command what it answers.
    fn body(&self) -> &'static str
        ensures { result.now ≡ body_of self.now }
    {
        match self {
            Page::Overview => OTHER_COMMANDS,
            Page::Version => "",
            Page::Basis => BASIS,
            Page::Member => MEMBER,
            Page::Decide => DECIDE,
            Page::Prove => PROVE,
            Page::Counter => COUNTER,
            Page::Cert => CERT,
            Page::Check => CHECK,
            Page::Full => FULL,
            Page::CheckFull => CHECKFULL,
            Page::CheckProof => CHECKPROOF,
            Page::Run => RUN,
            Page::Chain => CHAIN,
            Page::ChainRun => CHAINRUN,
            Page::Relations => RELATIONS,
            Page::Gen => GEN,
        }
    }

    /// The page as an answer.
    fn answer(&self, alloc: Global) -> Result<Answer, AllocError>
        ensures { IfOk result (λ a. answer_view a ≡ page_answer self.now) }
    {
        let head = self.head();
        let body = self.body();
        let text = format!(in alloc; "{head}{body}")?;
        Ok(Answer::new(Status::Yes, text))
    }
}

const LOOP_COMMANDS: &str =
    "invar finds all polynomial equations that always hold at the head of a simple
loop. Of a proved build a prover has checked that each of them holds and that
none is missing. Any other build says `built without its proofs` by --version.

About a loop:
  basis [--budget N] [--degree D] LOOP the reduced basis of all invariants
  member [--budget N] LOOP EQUATION    yes with its proof, or no
  decide [--budget N] LOOP EQUATION    yes or no, whatever the branches
  prove [--budget N] LOOP EQUATION     its certificate, or no
  counter [--length N] LOOP EQUATION   the first run after which it is wrong
  cert [--budget N] [--degree D] LOOP  the basis as a certificate
  check LOOP CERT                      is each polynomial listed an invariant?
  full [--budget N] LOOP               a certificate that none is missing
  checkfull LOOP CERT                  do they generate all invariants?
  run LOOP WORD VALUES                 the states of a run
";

const OTHER_COMMANDS: &str = "About loops one after another, and about sequences:
  chain [--budget N] CHAIN             for each loop what holds at its head
  chainrun CHAIN WORDS VALUES          the states of a run of such loops
  relations [--budget N] FILE          the basis of all relations of sequences
About programs:
  checkproof PROGRAM CERT              does each polynomial listed hold there?
Other:
  gen NUMBER                           counts over a family of loops
  help [COMMAND], --help               this text, or more about one command
  --version                            the version

Options stand before the file, in this order:
  --budget N   at most N steps of an analysis, 1 to 1000000; else 200000
  --degree D   equations up to degree D, 1 to 16, whatever the branches are
  --length N   words of at most N branches, 0 to 6; else 4

Status: 0 an answer, or yes; 1 no; 2 the words are no command; 3 a fault of a
text, or a loop that isn't taken; 4 a number may not fit into 128 bits; 5 the
budget is spent; 6 no memory; 7 a file can't be read or is too long; 8 writing
failed.

Examples:
  invar basis examples/squares.loop
  invar member examples/squares.loop 's = (a+1)^2'
";

const VERSION: &str = "invar 1.6.0\n";

const BASIS: &str = "Prints the reduced basis of all polynomial invariants of the loop in the file
LOOP, an equation a line, or `none`. Each invariant is a combination of these.
With `--degree D` the branches may be any, and those of these equations are
printed that have degree at most D.
";

const MEMBER: &str = "Prints `yes`, with status 0, where the equation holds at the end of every run
of the loop, and a cofactor for each element of the basis: the products of the
two add up to the left side minus the right side. Prints `no`, with status 1,
where it fails at the end of some run.
";

const DECIDE: &str = "Prints `yes`, with status 0, where the equation holds at the end of every run
of the loop, whatever its branches, and the reduced basis of its closure:
equations that hold at the start and that each branch keeps, from which it
follows. Prints `no`, with status 1, and the first run after which it is wrong.
";

const PROVE: &str = "Prints a certificate, with status 0, where the equation holds at the end of
every run of the loop, whatever its branches: its polynomial first, and then the
others that the proof needs. `invar check` reads it. Prints `no`, with status 1,
and the first run after which the equation is wrong.
";

const COUNTER: &str = "Prints the first word of at most N branches after which the equation doesn't
hold, the states of a run with it and the left side minus the right side at
its end, with status 1; or `none up to N`, with status 0.
";

const CERT: &str = "Prints the basis as a certificate, with the cofactors that show that a turn of
each branch keeps it zero. `invar check` reads it. With `--degree D` the
branches may be any, and the equations up to degree D are listed first.
";

const CHECK: &str =
    "Prints `valid`, with status 0, where the certificate in the file CERT shows that
each polynomial that it lists is an invariant of the loop; else the first part
that doesn't hold, with status 1.
";

const FULL: &str = "Prints the basis as a full certificate, which shows too that it generates all
invariants. `invar checkfull` reads it.
";

const CHECKFULL: &str =
    "Prints `complete`, with status 0, where the full certificate in the file CERT
shows that its polynomials generate all invariants of the loop; else the first
part that doesn't hold, with status 1.
";

const CHECKPROOF: &str =
    "Prints `valid`, with status 0, where the certificate in the file CERT shows that
each polynomial that it lists is 0 whenever a run comes to its point of the
program, and of each assertion whether it is listed there, and so `holds`, or is
`open`; else the first part that doesn't hold, with status 1.
";

const RUN: &str = "Prints the states of a run, one a line. WORD has the numbers of the branches,
VALUES those of the variables at the start; both are joined by commas.
";

const CHAIN: &str = "Prints for each of the loops one after another in the file CHAIN the reduced
basis of what holds at its head after all that comes before it.
";

const CHAINRUN: &str =
    "Prints the states of a run of loops one after another. WORDS has one word for
each loop, joined by `/`; words and values are those of `invar run`.
";

const RELATIONS: &str =
    "Prints the reduced basis of all polynomial relations of sequences that are given
by recurrences in the file FILE, an equation a line, or `none`.
";

const GEN: &str = "Analyses the first so many loops of a family, 1 to 1000, and prints how many
loops and elements there are, and the greatest degree. It reads no file.
";

// The values of the options.
ghost use Rattle.clap.specs.Words.{first_value, found_of};
ghost use Rattle.pr_words.specs.Command.{text};
ghost use Rattle.std.specs.Prelude.{◌≡◌, codes};

use clap::ArgMatches;

/// The options' values, as they were written.
#[derive(Clone, Copy)]
pub struct Given<'a> {
    pub seed: Option<&'a str>,
    pub size: Option<&'a str>,
    pub stop: Option<&'a str>,
    pub node: Option<&'a str>,
}

/// What the words gave.
pub fn given_by<'a>(matches: &ArgMatches<'a>) -> Given<'a>
    ensures seed { text result.seed ≡ first_value (found_of matches.now) (codes "seed") }
    ensures size { text result.size ≡ first_value (found_of matches.now) (codes "size") }
    ensures stop { text result.stop ≡ first_value (found_of matches.now) (codes "stop") }
    ensures node { text result.node ≡ first_value (found_of matches.now) (codes "node") }
{
    Given {
        seed: matches.get_str("seed"),
        size: matches.get_str("size"),
        stop: matches.get_str("stop"),
        node: matches.get_str("node"),
    }
}

// Three benches side by side.
ghost use Rattle.std.specs.Prelude.{◌≡◌, min, [], length, take, drop};
ghost use Rattle.bench.specs.Keeping.{takes};
ghost use Rattle.parting.specs.Logged.{of_whole, of_first, of_second};
ghost use Rattle.parting.specs.Parted.{Parted, TakeAlike, AllShared};
ghost use Rattle.parting.specs.Replies.{replies};
ghost use Rattle.parting.specs.Runs.{Answered, AllAnswered, AllRan};

use crate::commands::{Answer, Command, Trio};
use bench::benches::Bench;
use cells::kinds::Cell;
use finders::finding::Finder;
use refusals::Refusal;

// Gives a bench a command.
fn answer<C: Cell, F: Finder<C>>(
    bench: &mut Bench<C, F>,
    command: Command<C::Sample>,
) -> Result<Answer, Refusal>
    ensures { Answered C.Cell F.Finder bench.old command result bench.new }
{
    Ok(match command {
        Command::Feed(sample) => bench.feed(sample)?.into(),
        Command::Arm(number) => bench.arm(number)?.into(),
        Command::Rest(number) => bench.rest(number)?.into(),
        Command::Clear => bench.clear().into(),
        Command::Standing(number) => bench.standing(number).into(),
    })
}

impl<C: Cell, W: Finder<C>, X: Finder<C>, Y: Finder<C>> Trio<
    Bench<C, W>,
    Bench<C, X>,
    Bench<C, Y>,
> {
    // Gives the three benches a command.
    fn answer(&mut self, command: Command<C::Sample>) -> Trio
        ensures { AllAnswered C.Cell W.Finder X.Finder Y.Finder self.old command result self.new }
    {
        Trio {
            whole: answer::<C, W>(&mut self.whole, command),
            first: answer::<C, X>(&mut self.first, command),
            second: answer::<C, Y>(&mut self.second, command),
        }
    }

    // Gives the three benches every command in turn, and writes what they answer into a log of as many places.
    fn answer_all(&mut self, commands: &[Command<C::Sample>], log: &mut [Trio])
        requires { length commands.now ≡ length log.old }
        ensures { AllRan C.Cell W.Finder X.Finder Y.Finder self.old commands.now log.new self.new }
    {
        // An index, since the log is written where the command stands, and nothing is known of what is written by `zip`.
        for (i, command) in commands.iter().enumerate() {
            log[i] = self.answer(*command);
        }
    }

    // The same as far as commands and log reach; answers how many commands were given.
    fn run(&mut self, commands: &[Command<C::Sample>], log: &mut [Trio]) -> usize
        ensures steps { result ≡ min (length commands.now) (length log.old) }
        ensures ran { AllRan C.Cell W.Finder X.Finder Y.Finder self.old (take result commands.now) (take result log.new) self.new }
        ensures beyond { drop result log.new ≡ drop result log.old }
    {
        let steps = commands.len().min(log.len());
        self.answer_all(&commands[..steps], &mut log[..steps]);
        steps
    }
}

/// Makes a bench from each of three finders, gives every command to all three in turn, and writes what they answer into
/// the log, as far as commands and log reach; answers how many commands were given.
///
/// Each answer is the defined one. Where the book of the first finder is parted between the books of the other two, and
/// the three take the same samples, nothing is added, lost or shifted at any step: see `AllShared`.
// Three finders one by one, and no Trio of them, since the clauses name each.
pub fn run_parted<C: Cell, W: Finder<C> + Drop, X: Finder<C> + Drop, Y: Finder<C> + Drop>(
    whole: W,
    first: X,
    second: Y,
    commands: &[Command<C::Sample>],
    log: &mut [Trio],
) -> usize
    ensures steps { result ≡ min (length commands.now) (length log.old) }
    ensures whole { of_whole (take result log.new) ≡ replies C.Cell.hears (takes W.Finder.reads) (W.Finder.book whole) [] (take result commands.now) }
    ensures first { of_first (take result log.new) ≡ replies C.Cell.hears (takes X.Finder.reads) (X.Finder.book first) [] (take result commands.now) }
    ensures second { of_second (take result log.new) ≡ replies C.Cell.hears (takes Y.Finder.reads) (Y.Finder.book second) [] (take result commands.now) }
    ensures beyond { drop result log.new ≡ drop result log.old }
    ensures parting { Parted (W.Finder.book whole) (X.Finder.book first) (Y.Finder.book second) → TakeAlike W.Finder.reads X.Finder.reads → TakeAlike W.Finder.reads Y.Finder.reads → AllShared (X.Finder.book first) (Y.Finder.book second) (take result commands.now) (of_whole (take result log.new)) (of_first (take result log.new)) (of_second (take result log.new)) }
{
    let mut benches = Trio {
        whole: Bench::new(whole),
        first: Bench::new(first),
        second: Bench::new(second),
    };
    benches.run(commands, log)
}

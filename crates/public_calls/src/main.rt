// Each public call on small inputs: document 01's journal by the three calls, a ledger's copy beside it, plan part and its companion.
#![tactic(auto)]

ghost use Rattle.std.specs.Prelude.{◌≤◌, length};

use agent::{Replied, calls};
use belief::Beliefs;
use literal::Literal;
use load::Agent;
use model::{Answer, Answered};
use refusals::Refusal;
use std::io::Read;
use steps::answer::plain_result;
use transfer::BUFFER;

// Writes a result's line.
fn print<P: Print>(to: &P, res: Answered) {
    let mut out = [0u8; BUFFER];
    let n = printing::print_result(&mut out, 0, res);
    let _ = to.write_all(&out[..n]);
}

// Writes whether something is as it should be.
fn say<P: Print>(to: &P, right: bool) {
    let _ = to.write_all(if right { b"right\n" } else { b"WRONG\n" });
}

// An agent, a ledger's copy of its belief table, and where its answers are printed.
#[derive(Drop)]
struct Books<'a, P> {
    to: &'a P,
    agent: Agent,
    copy: Beliefs,
}

impl<'a, P: Print> Books<'a, P> {
    // The books of an agent newly loaded.
    fn open(to: &'a P, library: &[u8]) -> Result<Books<'a, P>, Refusal> {
        let agent = load::load(library)?;
        let copy = agent.state.beliefs;
        Ok(Books { to, agent, copy })
    }

    // The books of an agent whose library has no bytes: it is not well formed.
    fn open_unformed(to: &'a P) -> Result<Books<'a, P>, Refusal> {
        let mut books = Books::open(to, &[0; 4])?;
        books.agent.length = 0;
        Ok(books)
    }

    // The books that the journal is made with: of a library that is refused there is no agent.
    fn open_any(to: &'a P, library: &[u8]) -> Result<Books<'a, P>, Refusal> {
        Books::open(to, library).or_else(|_| Books::open_unformed(to))
    }

    // The answer is printed, and the ledger's copy follows it.
    fn book(&mut self, replied: Replied) {
        let result = replied.result;
        print(self.to, result);
        self.agent = replied.agent;
        let copied = ledger::copy_after(self.copy, result);
        self.copy = copied.unwrap_or(self.copy);
        let same = self.copy.count == self.agent.state.beliefs.count;
        say(self.to, copied.is_ok() && same);
    }

    fn report(&mut self, kind: u16, term: u16) {
        let literal = Literal {
            head: 1,
            first: term,
            second: 0,
            third: 0,
        };
        self.book(calls::report(self.agent, kind, literal));
    }

    fn cycle(&mut self) {
        self.book(calls::cycle(self.agent));
    }

    fn outcome(&mut self, worked: bool) {
        self.book(calls::outcome(self.agent, 1, worked));
    }

    // Document 01's input: a report, two cycles and an idle one, the outcome, the end, and an outcome that nobody waits for.
    fn journal(&mut self, worked: bool) {
        self.report(0, 5);
        self.cycle();
        self.cycle();
        self.cycle();
        self.outcome(worked);
        self.cycle();
        self.cycle();
        self.outcome(worked);
        self.report(3, 5);
    }
}

// Plan part and its companion, of the library's one plan and of one that it has not.
fn parts<P: Print>(to: &P, library: &[u8]) {
    let part = accepted::plan_part(library, 0);
    say(
        to,
        part.len() == 50 && accepted::plan_part_refusal(library, 0) == 0,
    );
    let nothing = accepted::plan_part(library, 1);
    say(
        to,
        nothing.is_empty() && accepted::plan_part_refusal(library, 1) == 11,
    );
}

// The journal twice, a call on an agent that has no library, and the parts.
fn calls_on<P: Print>(to: &P, library: &[u8]) -> Result<(), Refusal> {
    Books::open_any(to, library)?.journal(true);
    Books::open_any(to, library)?.journal(false);
    Books::open_unformed(to)?.cycle();
    parts(to, library);
    Ok(())
}

// Reads until the buffer is full, the input ends or a read fails, and tells how many bytes there are.
// Not transfer's: that one waits where a read would block, and this program waits for nothing.
fn read_full<I: Read>(input: &mut I, buf: &mut [u8]) -> usize
    ensures { result ≤ length buf.new }
{
    let mut done: usize = 0;
    // No `for`: a turn goes on by as many bytes as a read gave.
    while done < buf.len() {
        let Ok(n) = input.read(&mut buf[done..]) else {
            return done;
        };
        if n == 0 {
            return done;
        }
        done += n;
    }
    done
}

// Document 01's library comes from standard input.
fn main(rt: HostRuntime) {
    let mut input = [0u8; BUFFER];
    let mut stdin = rt.stdin();
    let n = read_full(&mut stdin, &mut input);
    let library = &input[..n];
    if let Err(refusal) = calls_on(&rt, library) {
        print(&rt, plain_result(Answer::Refused(u16::from(refusal))));
    }
}

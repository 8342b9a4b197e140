//! Dialogues with a device: what it is asked, what its answers are, and what the Response holds.

use crate::asker::{Asker, Shown, asker_in, load};
use crate::row::{Fault, Row, put};
use crate::subjects::Subject;
use snmp_ber::Oid;
use snmp_msg::{Pdu, PduType};
use snmp_responder::Viewer;
use snmp_walk::{BulkAsk, BulkDialogue, BulkLimits, BulkNext, Dialogue, Next, ReadOperation};
use std::alloc::{AllocError, Global};
use std::fmt;
use vacm_core::Vacm;

/// A dialogue.
#[derive(Drop)]
enum Talk {
    /// None was begun.
    None,
    /// For a GetRequest or a GetNextRequest.
    Read(ReadOperation, Dialogue),
    /// For a GetBulkRequest.
    Bulk(BulkDialogue),
}

/// Tables, who asks, and a dialogue for a request.
#[derive(Drop)]
pub struct Walks {
    tables: Option<Vacm>,
    asker: Option<Asker>,
    talk: Talk,
}

/// A PDU with these bindings, and these two numbers before them.
fn pdu_of<'a>(kind: PduType, second: i32, third: i32, list: &'a [u8]) -> Pdu<'a> {
    Pdu {
        tag: kind.tag(),
        id: 1,
        second,
        third,
        list,
    }
}

/// The names that are asked, each behind a space.
#[derive(Drop)]
struct Names<'a>(Vec<&'a Oid>);

impl fmt::Display for Names<'_> {
    fn fmt<W: fmt::Write>(&self, f: &mut fmt::Formatter<W>) -> fmt::Result {
        for name in &self.0 {
            write!(f, " {name}")?;
        }
        Ok(())
    }
}

/// The names that a dialogue asks.
fn names_of(alloc: Global, dialogue: &Dialogue) -> Result<Names<'_>, AllocError> {
    let mut names = Vec::new(alloc);
    for column in dialogue.columns() {
        if let Some(name) = column.asked_name() {
            names.push(name)?;
        }
    }
    Ok(Names(names))
}

/// The names that a dialogue for a GetBulkRequest asks.
fn bulk_names_of(alloc: Global, dialogue: &BulkDialogue) -> Result<Names<'_>, AllocError> {
    let mut names = Vec::new(alloc);
    for column in dialogue.columns() {
        if let Some(name) = column.asked_name() {
            names.push(name)?;
        }
    }
    Ok(Names(names))
}

/// The first word of what is asked.
fn word_of(operation: ReadOperation) -> &'static str {
    match operation {
        ReadOperation::Get => "get",
        ReadOperation::GetNext => "get_next",
    }
}

/// Says what becomes of a dialogue next.
fn say_next(row: &mut Row<'_>, operation: ReadOperation, dialogue: &Dialogue, next: Next) {
    match next {
        Next::Asks => match names_of(row.alloc, dialogue) {
            Ok(names) => {
                let word = word_of(operation);
                row.say(format!(in row.alloc; "asks {word}{names}"));
            }
            Err(_) => row.lack(),
        },
        Next::Ends => row.tell("ends"),
        Next::RoundsUsedUp(number) => row.say(format!(in row.alloc; "rounds used up {number}")),
    }
}

/// Says what a device is asked for a GetBulkRequest.
fn say_ask(row: &mut Row<'_>, dialogue: &BulkDialogue, ask: BulkAsk) {
    match (ask, bulk_names_of(row.alloc, dialogue)) {
        (BulkAsk::GetNext, Ok(names)) => row.say(format!(in row.alloc; "asks get_next{names}")),
        (BulkAsk::GetBulk(non_repeaters, most), Ok(names)) => {
            row.say(format!(in row.alloc; "asks get_bulk {non_repeaters} {most}{names}"));
        }
        (_, Err(_)) => row.lack(),
    }
}

/// Says what becomes of a dialogue for a GetBulkRequest next.
fn say_bulk_next(row: &mut Row<'_>, dialogue: &BulkDialogue, next: BulkNext) {
    match next {
        BulkNext::Asks(ask) => say_ask(row, dialogue, ask),
        BulkNext::Ends => row.tell("ends"),
        BulkNext::RoundsUsedUp(number) => {
            row.say(format!(in row.alloc; "rounds used up {number}"));
        }
    }
}

/// Says what the Response holds, if all is there.
fn say_bindings(row: &mut Row<'_>, dialogue: &Dialogue) {
    if dialogue.first_open().is_some() {
        row.tell("not yet");
        return;
    }
    match dialogue.bindings(row.alloc) {
        Ok(bindings) => row.say(format!(in row.alloc; "answered{}", Shown(&bindings))),
        Err(_) => row.lack(),
    }
}

/// Says what the Response to a GetBulkRequest holds.
fn say_front(row: &mut Row<'_>, dialogue: &BulkDialogue) {
    match dialogue.front(row.alloc) {
        Ok(front) => row.say(format!(in row.alloc; "answered{}", Shown(&front))),
        Err(_) => row.lack(),
    }
}

impl Talk {
    /// `get NAME LEVEL CONTEXT ROUNDS OCTETS`, and `get_next` with the same words.
    fn begin(row: &mut Row<'_>, viewer: &Viewer<'_>, operation: ReadOperation) -> Talk {
        let rounds = row.number32();
        let request = pdu_of(operation.pdu_type(), 0, 0, row.octets());
        match Dialogue::new(row.alloc, viewer, operation, &request, rounds) {
            Ok(dialogue) => {
                row.tell("begun");
                Talk::Read(operation, dialogue)
            }
            Err(_) => {
                row.lack();
                Talk::None
            }
        }
    }

    /// `get_bulk NAME LEVEL CONTEXT ROUNDS REPETITIONS AT-ONCE GATHERED NON-REPEATERS MAX-REPETITIONS OCTETS`.
    fn begin_bulk(row: &mut Row<'_>) -> Talk {
        let limits = BulkLimits {
            rounds: row.number32(),
            repetitions: row.place(),
            at_once: row.place(),
            gathered: row.place(),
        };
        let (second, third) = (row.signed32(), row.signed32());
        let request = pdu_of(PduType::GetBulkRequest, second, third, row.octets());
        match BulkDialogue::new(row.alloc, &request, &limits) {
            Ok(dialogue) => {
                row.tell("begun");
                Talk::Bulk(dialogue)
            }
            Err(_) => {
                row.lack();
                Talk::None
            }
        }
    }

    /// A row that begins a dialogue.
    fn begun(row: &mut Row<'_>, viewer: &Viewer<'_>) -> Talk {
        match row.kind {
            "get" => Talk::begin(row, viewer, ReadOperation::Get),
            "get_next" => Talk::begin(row, viewer, ReadOperation::GetNext),
            _ => Talk::begin_bulk(row),
        }
    }

    /// A row that goes on with a dialogue.
    fn follow(&mut self, row: &mut Row<'_>, viewer: &Viewer<'_>) {
        match row.kind {
            "go_on" => self.go_on(row, viewer),
            "answer" => self.take(row, viewer),
            _ => self.respond(row),
        }
    }

    /// `go_on`.
    fn go_on(&mut self, row: &mut Row<'_>, viewer: &Viewer<'_>) {
        match self {
            Talk::None => row.fail("a dialogue that was begun"),
            Talk::Read(operation, dialogue) => {
                let next = dialogue.go_on(viewer);
                say_next(row, *operation, dialogue, next);
            }
            Talk::Bulk(dialogue) => {
                let next = dialogue.go_on(viewer);
                say_bulk_next(row, dialogue, next);
            }
        }
    }

    /// `answer STATUS INDEX OCTETS`.
    fn take(&mut self, row: &mut Row<'_>, viewer: &Viewer<'_>) {
        let (second, third) = (row.signed32(), row.signed32());
        let answer = pdu_of(PduType::Response, second, third, row.octets());
        match self {
            Talk::None => row.fail("a dialogue that was begun"),
            Talk::Read(_, dialogue) => match dialogue.take(row.alloc, viewer, &answer) {
                Ok(answered) => row.say(format!(in row.alloc; "{answered:?}")),
                Err(_) => row.lack(),
            },
            Talk::Bulk(dialogue) => match dialogue.take(row.alloc, viewer, &answer) {
                Ok(answered) => row.say(format!(in row.alloc; "{answered:?}")),
                Err(_) => row.lack(),
            },
        }
    }

    /// `response`.
    fn respond(&self, row: &mut Row<'_>) {
        match self {
            Talk::None => row.fail("a dialogue that was begun"),
            Talk::Read(_, dialogue) => say_bindings(row, dialogue),
            Talk::Bulk(dialogue) => say_front(row, dialogue),
        }
    }
}

impl Walks {
    /// No tables, nobody who asks, and no dialogue.
    fn new() -> Walks {
        Walks {
            tables: None,
            asker: None,
            talk: Talk::None,
        }
    }

    /// A row that begins a dialogue, or goes on with it.
    fn talked(&mut self, row: &mut Row<'_>) {
        let is_begin = matches!(row.kind, "get" | "get_next" | "get_bulk");
        if is_begin {
            put(&mut self.asker, asker_in(row));
        }
        let (Some(vacm), Some(asker)) = (&self.tables, &self.asker) else {
            row.fail("tables that are loaded, and who asks");
            return;
        };
        let viewer = asker.viewer(vacm);
        if is_begin {
            put(&mut self.talk, Talk::begun(row, &viewer));
        } else {
            self.talk.follow(row, &viewer);
        }
    }
}

impl Subject for Walks {
    fn begin(_alloc: Global) -> Result<Walks, Fault> {
        Ok(Walks::new())
    }

    fn answer(&mut self, row: &mut Row<'_>) {
        match row.kind {
            "new" => put(self, Walks::new()),
            "get" | "get_next" | "get_bulk" | "go_on" | "answer" | "response" => self.talked(row),
            "tables" => load(&mut self.tables, row),
            _ => row.fail_kind(),
        }
    }
}

//! Reads a text as a program, twice: the first time gathers what is named and where labels stand, and the second time
//! has the numbers of all that.

use crate::answer::Answer;
use crate::forms::{Found, find};
use crate::names::{Names, ProtoOf};
use crate::operands::{Operands, insn_of};
use crate::values::{flag_of, named_value, number_value};
use program_model::{
    Body, Class, EncValue, Field, Flags, Handler, Insn, Mark, Method, Note, Program, Region,
    Version,
};
use seq::Seq;
use std::alloc::Global;
use std::collections::BTreeMap;
use std::mem::replace;

/// The superclass of a class that names none.
const OBJECT: &str = "Ljava/lang/Object;";

/// The words that begin a line, other than mnemonics: five with words of their own behind them, and four with a number.
const DIRECTIVES: &str = "class field method try names registers ins line version";

/// What a line of a class or a member says: its flags, its annotations, its other words in their order, and its first
/// value.
#[derive(Drop)]
struct Heading<'a> {
    flags: Flags,
    marks: Seq<Mark>,
    words: Vec<&'a str>,
    first: Option<EncValue>,
}

/// What the words of a class's line say, from one of three words on: before them stands its name.
#[derive(Clone, Copy)]
enum Part {
    Name,
    Superclass,
    Interfaces,
    Source,
}

impl Part {
    /// The part that a word begins.
    fn of(word: &str) -> Option<Part> {
        match word {
            "extends" => Some(Part::Superclass),
            "implements" => Some(Part::Interfaces),
            "source" => Some(Part::Source),
            _ => None,
        }
    }
}

/// What was read so far. `program` has the classes that have ended; `class`, `method` and `body` are those that go on,
/// `words` the registers that the method's arguments take, and `line` the line of the source of what comes. That a line
/// can't be read is remembered in `seen`, and its number in `wrong`: so what reads a part of it has no way out of its own.
#[derive(Drop)]
struct Assembler {
    alloc: Global,
    seen: Answer,
    wrong: u32,
    names: Names,
    labels: BTreeMap<String, u32>,
    is_second: bool,
    program: Program,
    class: Option<Class>,
    class_name: Vec<u16>,
    method: Option<Method>,
    methods: u32,
    words: u16,
    body: Option<Body>,
    lines: Seq<u32>,
    line: Option<u32>,
}

/// A program of nothing.
fn empty(alloc: Global) -> Program {
    Program {
        strings: Seq::new(alloc),
        types: Seq::new(alloc),
        protos: Seq::new(alloc),
        fields: Seq::new(alloc),
        methods: Seq::new(alloc),
        classes: Seq::new(alloc),
        version: Version::V035,
    }
}

/// The number that a word spells.
fn small(word: Option<&str>) -> Option<u16> {
    word?.parse::<u16>().ok()
}

/// The place of a directive.
fn directive(word: &str) -> Option<usize> {
    DIRECTIVES.split_whitespace().position(|one| one == word)
}

/// Whether there are so many operands of each kind as a form has.
fn fit(found: &Found, operands: &Operands) -> bool {
    let counts = [
        operands.registers.len(),
        operands.numbers.len(),
        operands.labels.len(),
    ];
    found.operands.bytes().zip(counts.iter()).all(|(wanted, count)| wanted == b'*'
        || usize::from(wanted) == count.saturating_add(48))
}

impl Assembler {
    fn new(alloc: Global) -> Self {
        Assembler {
            alloc,
            seen: Answer::new(alloc),
            wrong: 0,
            names: Names::new(alloc),
            labels: BTreeMap::new(alloc),
            is_second: false,
            program: empty(alloc),
            class: None,
            class_name: Vec::new(alloc),
            method: None,
            methods: 0,
            words: 0,
            body: None,
            lines: Seq::new(alloc),
            line: None,
        }
    }

    /// The word at a place.
    fn word<'a>(&mut self, words: &[&'a str], place: usize) -> &'a str {
        match words.get(place) {
            Some(word) => *word,
            None => {
                self.seen.refuse();
                ""
            }
        }
    }

    /// The number of a type.
    fn kind(&mut self, word: &str) -> u32 {
        let units = self.seen.units(word);
        self.names.kind(units.as_slice())
    }

    /// The number of a string, which may stand between quotes.
    fn string(&mut self, word: &str) -> u32 {
        let word = word.strip_prefix('"').unwrap_or(word);
        let word = word.strip_suffix('"').unwrap_or(word);
        let units = self.seen.units(word);
        self.names.string(units.as_slice())
    }

    /// The number of a field `CLASS->NAME:TYPE`.
    fn field(&mut self, word: &str) -> u32 {
        let (class, member) = self.seen.split(word, "->");
        let (name, kind) = self.seen.split(member, ":");
        let class = self.seen.units(class);
        let name = self.seen.units(name);
        let kind = self.seen.units(kind);
        self.names.field(
            &mut self.program,
            class.as_slice(),
            name.as_slice(),
            kind.as_slice(),
        )
    }

    /// The method `NAME(PARAMETERS)RESULT` of a class.
    fn method_in(&mut self, class: &[u16], member: &str) -> ProtoOf {
        let (name, proto) = self.seen.split(member, "(");
        let (parameters, answer) = self.seen.split(proto, ")");
        let name = self.seen.units(name);
        let parameters = self.seen.units(parameters);
        let answer = self.seen.units(answer);
        let proto = (parameters.as_slice(), answer.as_slice());
        self.names
            .method(&mut self.program, class, name.as_slice(), proto)
    }

    /// The number of a method `CLASS->NAME(PARAMETERS)RESULT`.
    fn method(&mut self, word: &str) -> u32 {
        let (class, member) = self.seen.split(word, "->");
        let class = self.seen.units(class);
        self.method_in(class.as_slice(), member).number
    }

    /// A first value that is a number or `null`.
    fn number(&mut self, word: &str) -> EncValue {
        match number_value(word) {
            Some(value) => value,
            None => {
                self.seen.refuse();
                EncValue::Null
            }
        }
    }

    /// A first value.
    fn value(&mut self, word: &str) -> EncValue {
        match named_value(word) {
            Some((0, name)) => EncValue::Str(self.string(name)),
            Some((1, name)) => EncValue::Class(self.kind(name)),
            Some((2, name)) => EncValue::Field(self.field(name)),
            Some((3, name)) => EncValue::Method(self.method(name)),
            Some((_, name)) => EncValue::Enum(self.field(name)),
            None => self.number(word),
        }
    }

    /// An annotation without elements.
    fn mark(&mut self, kind: &str) -> Mark {
        Mark {
            visibility: 1,
            note: Note {
                class: self.kind(kind),
                elements: Seq::new(self.alloc),
            },
        }
    }

    /// Reads a word of a line of a class or a member.
    fn add_word<'a>(&mut self, word: &'a str, heading: &mut Heading<'a>) {
        if let Some(kind) = word.strip_prefix('@') {
            let mark = self.mark(kind);
            self.seen.note(heading.marks.push(mark).is_err());
        } else if let Some(flag) = flag_of(word) {
            heading.flags.0 |= flag;
        } else {
            self.seen.note(heading.words.push(word).is_err());
        }
    }

    /// The words of a line of a class or a member.
    fn heading<'a>(&mut self, text: &'a str) -> Heading<'a> {
        let mut heading = Heading {
            flags: Flags(0),
            marks: Seq::new(self.alloc),
            words: Vec::new(self.alloc),
            first: None,
        };
        let (said, value) = match text.split_once('=') {
            Some((said, value)) => (said, Some(value)),
            None => (text, None),
        };
        for word in said.split_whitespace().skip(1) {
            self.add_word(word, &mut heading);
        }
        if let Some(value) = value {
            heading.first = Some(self.value(value.trim()));
        }
        heading
    }

    /// The method that goes on ends.
    fn end_method(&mut self) {
        let Some(mut method) = self.method.take() else {
            return;
        };
        method.body = self.body.take();
        method.lines = replace(&mut self.lines, Seq::new(self.alloc));
        self.line = None;
        if let Some(class) = &mut self.class {
            self.seen.note(class.methods.push(method).is_err());
        }
    }

    /// The class that goes on ends.
    fn end_class(&mut self) {
        self.end_method();
        if let Some(class) = self.class.take() {
            self.seen.note(self.program.classes.push(class).is_err());
        }
    }

    /// The number of the class that a line names first, whose members are those that follow.
    fn name_class(&mut self, words: &[&str]) -> u32 {
        let name = self.word(words, 0);
        self.class_name = self.seen.units(name);
        self.kind(name)
    }

    /// An interface of the class.
    fn add_interface(&mut self, word: &str) {
        let kind = self.kind(word);
        if let Some(class) = &mut self.class {
            self.seen.note(class.interfaces.push(kind).is_err());
        }
    }

    /// The source of the class.
    fn set_source(&mut self, word: &str) {
        let string = self.string(word);
        if let Some(class) = &mut self.class {
            class.source = Some(string);
        }
    }

    /// What the words of the class's line say behind its name.
    fn add_above(&mut self, words: &[&str]) {
        let mut superclass = OBJECT;
        let mut part = Part::Name;
        for word in words {
            match (Part::of(*word), part) {
                (Some(next), _) => part = next,
                (None, Part::Name) => {}
                (None, Part::Superclass) => superclass = *word,
                (None, Part::Interfaces) => self.add_interface(*word),
                (None, Part::Source) => self.set_source(*word),
            }
        }
        let superclass = self.kind(superclass);
        if let Some(class) = &mut self.class {
            class.superclass = superclass;
        }
    }

    /// A class begins.
    fn begin_class(&mut self, text: &str) {
        self.end_class();
        let heading = self.heading(text);
        let name = self.name_class(heading.words.as_slice());
        self.class = Some(Class {
            name,
            flags: heading.flags,
            superclass: 0,
            interfaces: Seq::new(self.alloc),
            source: None,
            marks: heading.marks,
            fields: Seq::new(self.alloc),
            methods: Seq::new(self.alloc),
        });
        self.add_above(heading.words.as_slice());
    }

    /// The number of the field of the class that a line names.
    fn field_named(&mut self, words: &[&str]) -> u32 {
        let name = self.word(words, 0);
        let kind = self.word(words, 1);
        let name = self.seen.units(name);
        let kind = self.seen.units(kind);
        self.names.field(
            &mut self.program,
            self.class_name.as_slice(),
            name.as_slice(),
            kind.as_slice(),
        )
    }

    /// A field of the class.
    fn add_field(&mut self, text: &str) {
        self.end_method();
        let heading = self.heading(text);
        let name = self.field_named(heading.words.as_slice());
        let field = Field {
            name,
            flags: heading.flags,
            first: heading.first,
            marks: heading.marks,
        };
        match &mut self.class {
            Some(class) => self.seen.note(class.fields.push(field).is_err()),
            None => self.seen.refuse(),
        }
    }

    /// The method of the class that a line names.
    fn method_named(&mut self, words: &[&str]) -> ProtoOf {
        let mut member = String::new(self.alloc);
        for word in words {
            self.seen.note(member.push_str(*word).is_err());
        }
        let class = replace(&mut self.class_name, Vec::new(self.alloc));
        let method = self.method_in(class.as_slice(), member.as_str());
        self.class_name = class;
        method
    }

    /// A method of the class begins.
    fn begin_method(&mut self, text: &str) {
        self.end_method();
        let heading = self.heading(text);
        let method = self.method_named(heading.words.as_slice());
        let receiver = if heading.flags.has(Flags::STATIC) {
            0
        } else {
            1
        };
        self.words = method.words.saturating_add(receiver);
        self.methods = self.methods.saturating_add(1);
        self.method = Some(Method {
            name: method.number,
            flags: heading.flags,
            marks: heading.marks,
            parameter_marks: Seq::new(self.alloc),
            body: None,
            lines: Seq::new(self.alloc),
        });
    }

    /// The key of a label of the method.
    fn key(&mut self, label: &str) -> Option<String> {
        let methods = self.methods;
        let key = format!(in self.alloc; "{methods}{label}").ok();
        self.seen.note(key.is_none());
        key
    }

    /// The position of a label of the method.
    fn label(&mut self, label: &str) -> u32 {
        let position = match self.key(label) {
            Some(key) => self.labels.get(key.as_str()).copied(),
            None => None,
        };
        self.seen.refuse_where(self.is_second && position.is_none());
        position.unwrap_or(0)
    }

    /// The position of a label that has to stand there.
    fn label_of(&mut self, word: Option<&str>) -> u32 {
        self.seen.refuse_where(word.is_none());
        self.label(word.unwrap_or(""))
    }

    /// How many instructions the method has so far.
    fn position(&self) -> u32 {
        match &self.body {
            Some(body) => u32::try_from(body.insns.len()).unwrap_or(u32::MAX),
            None => 0,
        }
    }

    /// A label stands here.
    fn put_label(&mut self, label: &str) {
        if self.is_second {
            return;
        }
        let position = self.position();
        if let Some(key) = self.key(label) {
            match self.labels.insert(key, position) {
                Ok(before) => self.seen.refuse_where(before.is_some()),
                Err(_) => self.seen.note(true),
            }
        }
    }

    /// The number of what a form names, by the last letter of what its operands are.
    fn name(&mut self, kind: u8, word: &str) -> u32 {
        match kind {
            b's' => self.string(word),
            b't' => self.kind(word),
            b'f' => self.field(word),
            _ => self.method(word),
        }
    }

    /// The operands of a form in a line.
    fn operands(&mut self, found: &Found, text: &str) -> Operands {
        let mut operands = Operands {
            registers: Vec::new(self.alloc),
            numbers: Vec::new(self.alloc),
            labels: Vec::new(self.alloc),
            name: 0,
        };
        let kind = found.operands.bytes().last().unwrap_or(b'-');
        let mut is_named = kind == b'-';
        for word in text.split_whitespace().skip(1) {
            if let Some(register) = small(word.strip_prefix('v')) {
                self.seen.note(operands.registers.push(register).is_err());
            } else if word.starts_with(':') {
                let label = self.label(word);
                self.seen.note(operands.labels.push(label).is_err());
            } else if let Ok(number) = word.parse::<i128>() {
                self.seen.note(operands.numbers.push(number).is_err());
            } else {
                self.seen.refuse_where(is_named);
                operands.name = self.name(kind, word);
                is_named = true;
            }
        }
        self.seen.refuse_where(!is_named);
        operands
    }

    /// The instruction of a form with these operands.
    fn insn(&mut self, found: &Found, operands: &Operands) -> Option<Insn> {
        if !fit(found, operands) {
            return None;
        }
        match insn_of(self.alloc, found.form, found.operation, operands) {
            Ok(insn) => insn,
            Err(_) => {
                self.seen.note(true);
                None
            }
        }
    }

    /// Adds an instruction to the method.
    fn put_insn(&mut self, insn: Insn) {
        if let Some(line) = self.line {
            self.seen.note(self.lines.push(line).is_err());
        }
        match &mut self.body {
            Some(body) => self.seen.note(body.insns.push(insn).is_err()),
            None => self.seen.refuse(),
        }
    }

    /// An instruction of the method.
    fn add_insn(&mut self, text: &str) {
        let Some(found) = find(text.split_whitespace().next().unwrap_or("")) else {
            self.seen.refuse();
            return;
        };
        let operands = self.operands(&found, text);
        match self.insn(&found, &operands) {
            Some(insn) => self.put_insn(insn),
            None => self.seen.refuse(),
        }
    }

    /// Reads the handlers of a region and its catch-all, from the third word on.
    fn fill_region(&mut self, text: &str, region: &mut Region) {
        let mut kind = None;
        for word in text.split_whitespace().skip(3) {
            match kind {
                _ if !word.starts_with(':') => kind = Some(self.kind(word)),
                Some(of) => {
                    let position = self.label(word);
                    let handler = Handler { kind: of, position };
                    self.seen.note(region.handlers.push(handler).is_err());
                    kind = None;
                }
                None => region.rest = Some(self.label(word)),
            }
        }
    }

    /// A region of the method: its first position, its end, the types with the positions of their handlers, and the
    /// position of the catch-all.
    fn add_region(&mut self, text: &str) {
        let mut words = text.split_whitespace().skip(1);
        let mut region = Region {
            first: self.label_of(words.next()),
            end: self.label_of(words.next()),
            handlers: Seq::new(self.alloc),
            rest: None,
        };
        self.fill_region(text, &mut region);
        match &mut self.body {
            Some(body) => self.seen.note(body.regions.push(region).is_err()),
            None => self.seen.refuse(),
        }
    }

    /// What no class names.
    fn add_names(&mut self, text: &str) {
        for word in text.split_whitespace().skip(1) {
            if word.contains('(') {
                self.method(word);
            } else if word.contains(':') {
                self.field(word);
            } else {
                self.kind(word);
            }
        }
    }

    /// The method has code, with so many registers.
    fn begin_code(&mut self, registers: u16) {
        self.body = Some(Body {
            registers,
            ins: self.words,
            insns: Seq::new(self.alloc),
            regions: Seq::new(self.alloc),
        });
    }

    /// What follows stands in this line of the source.
    fn set_line(&mut self, line: u16) {
        if self.line.is_none() {
            for _ in 0..self.position() {
                self.seen.note(self.lines.push(0).is_err());
            }
        }
        self.line = Some(u32::from(line));
    }

    /// Says how many registers the code has, how many of them are arguments, the line of the source, or the version.
    fn count(&mut self, directive: usize, number: u16) {
        match directive {
            5 => self.begin_code(number),
            6 => {
                if let Some(body) = &mut self.body {
                    body.ins = number;
                }
            }
            7 => self.set_line(number),
            _ if number == 37 => self.program.version = Version::V037,
            _ => self.program.version = Version::V035,
        }
    }

    /// Reads a line that begins with a directive, by its place.
    fn direct(&mut self, directive: usize, text: &str) {
        match directive {
            0 => self.begin_class(text),
            1 => self.add_field(text),
            2 => self.begin_method(text),
            3 => self.add_region(text),
            4 => self.add_names(text),
            _ => match small(text.split_whitespace().nth(1)) {
                Some(number) => self.count(directive, number),
                None => self.seen.refuse(),
            },
        }
    }

    /// Reads a line.
    fn read(&mut self, text: &str) {
        let first = text.split_whitespace().next().unwrap_or("#");
        if first.starts_with(':') {
            self.put_label(first);
        } else if !first.starts_with('#') {
            match directive(first) {
                Some(directive) => self.direct(directive, text),
                None => self.add_insn(text),
            }
        }
    }

    /// Reads all lines.
    fn read_all(&mut self, text: &str) {
        let mut number: u32 = 0;
        for line in text.lines() {
            number = number.saturating_add(1);
            self.read(line);
            if self.wrong == 0 && self.seen.is_wrong() {
                self.wrong = number;
            }
        }
        self.end_class();
    }

    /// Numbers what was named, and begins a program with tables of all that.
    fn begin_again(&mut self) {
        self.is_second = true;
        self.methods = 0;
        self.line = None;
        self.lines = Seq::new(self.alloc);
        self.program = empty(self.alloc);
        self.names.number();
        let begun = self.names.begin(&mut self.program);
        self.seen.note(begun.is_err());
    }

    /// Reads a text twice.
    fn read_twice(&mut self, text: &str) {
        self.read_all(text);
        self.begin_again();
        self.read_all(text);
        self.seen.note(self.names.lacks_memory());
    }

    /// Tells what went wrong.
    fn tell(&self, answer: &mut Answer) {
        answer.note(self.seen.lacks_memory());
        if self.wrong > 0 {
            answer.say_number("line ", i128::from(self.wrong));
            answer.say(" of the program ");
            answer.refuse();
        }
    }
}

/// The program of a text, whose tables have what it names, in order. Where a line can't be read the answer is refused, and
/// has its number.
pub fn program_of(answer: &mut Answer, text: &str) -> Program {
    let mut reading = Assembler::new(answer.alloc());
    reading.read_twice(text);
    reading.tell(answer);
    reading.program
}

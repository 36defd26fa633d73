//! Where runs begin: what the framework may enter and need, what fields hold before they are written, and what comes back
//! from calls that may leave the program.

use crate::codes::Code;
use crate::order::order_of;
use crate::rows::{behind, is_on, mark_all};
use crate::spread::Spread;
use call_targets::Targets;
use domains::Value;
use program_model::{Class, EncValue, Field, Outside, Program};
use std::alloc::{AllocError, Global};

/// The first value of a field that has one in its declaration. A text, a class or a number of a float is anything.
fn value_of(first: &EncValue) -> Value {
    match first {
        EncValue::Byte(number) => Value::constant(i32::from(*number).cast_unsigned()),
        EncValue::Short(number) => Value::constant(i32::from(*number).cast_unsigned()),
        EncValue::Char(unit) => Value::constant(u32::from(*unit)),
        EncValue::Int(number) => Value::constant(number.cast_unsigned()),
        EncValue::Float(bits) => Value::constant(*bits),
        EncValue::Bool(holds) => Value::constant(u32::from(*holds)),
        EncValue::Long(number) => Value::wide(number.cast_unsigned()),
        EncValue::Double(bits) => Value::wide(*bits),
        EncValue::Null => Value::constant(0),
        _ => Value::any(),
    }
}

/// Whether a field number is of one of the wide types.
fn is_wide(program: &Program, field: u32) -> bool {
    let kind = match program.fields.as_slice().get(field as usize) {
        Some(name) => name.kind,
        None => return false,
    };
    let string = match program.types.as_slice().get(kind as usize) {
        Some(string) => *string,
        None => return false,
    };
    match program.strings.as_slice().get(string as usize) {
        Some(text) => matches!(text.units(), [74] | [68]),
        None => false,
    }
}

/// What a field holds before it is written.
fn first_value(program: &Program, field: &Field) -> Value {
    match &field.first {
        Some(first) => value_of(first),
        None => {
            if is_wide(program, field.name) {
                Value::wide(0)
            } else {
                Value::constant(0)
            }
        }
    }
}

impl Spread<'_> {
    /// Lets the fields of a class hold what they hold before they are written, anything where they are kept.
    fn begin_fields(
        &mut self,
        alloc: Global,
        kept: &[bool],
        class: &Class,
    ) -> Result<(), AllocError> {
        let program = self.ground.program;
        for field in class.fields.as_slice() {
            let cell = behind(self.ground.numbering.fields, field.name);
            if is_on(kept, field.name) {
                self.cells.open(cell);
            } else {
                self.cells.raise(alloc, cell, &first_value(program, field))?;
            }
        }
        Ok(())
    }

    /// The same for the fields of all classes.
    fn begin_all_fields(&mut self, alloc: Global, outside: &Outside) -> Result<(), AllocError> {
        let program = self.ground.program;
        let mut kept = vec![in alloc; false; program.fields.len()]?;
        mark_all(&mut kept, outside.fields.as_slice());
        mark_all(&mut kept, outside.fields_if.as_slice());
        for class in program.classes.as_slice() {
            self.begin_fields(alloc, &kept, class)?;
        }
        Ok(())
    }

    /// Lets anything come back from the calls that may leave the program.
    fn begin_answers(&mut self, targets: &Targets) {
        let mut cell = self.ground.numbering.answers;
        for leaves in targets.leaves.as_slice() {
            if *leaves {
                self.cells.open(cell);
            }
            cell = behind(cell, 1);
        }
    }

    /// Lets anything be passed to a body.
    fn open_words(&mut self, code: &Code<'_>) {
        for word in 0..u32::from(code.body.ins) {
            self.cells.open(behind(code.first_word, word));
        }
    }

    /// Lets the framework enter a body, if it may, with anything in each parameter.
    fn begin_entry(&mut self, targets: &Targets, place: u32) -> Result<(), AllocError> {
        let codes = self.ground.codes;
        match codes.at(place) {
            Some(code) => {
                if is_on(&targets.entered, code.number) {
                    self.open_words(code);
                    self.begin(place, true)?;
                }
                Ok(())
            }
            None => Ok(()),
        }
    }

    /// Lets the framework enter all bodies that it may, in the order in which they are walked through first.
    fn begin_entries(&mut self, alloc: Global, targets: &Targets) -> Result<(), AllocError> {
        let ground = self.ground;
        let order = order_of(alloc, ground.codes, ground.sites, ground.found)?;
        for place in order.as_slice() {
            self.begin_entry(targets, *place)?;
        }
        Ok(())
    }

    /// Lets the classes be initialised that the framework needs.
    fn begin_classes(&mut self, targets: &Targets) -> Result<(), AllocError> {
        let mut place = 0u32;
        for begun in targets.begun.as_slice() {
            if *begun {
                self.needed.add(place)?;
            }
            place = behind(place, 1);
        }
        Ok(())
    }

    /// Searches from where the framework begins: first through the initialisers of classes, since what they put into fields
    /// is read by others.
    pub(crate) fn search(
        &mut self,
        alloc: Global,
        outside: &Outside,
        targets: &Targets,
    ) -> Result<(), AllocError> {
        self.begin_all_fields(alloc, outside)?;
        self.begin_answers(targets);
        self.begin_classes(targets)?;
        self.run(alloc)?;
        self.begin_entries(alloc, targets)?;
        self.run(alloc)
    }
}

//! What was found in a source, as a JSON object.
ghost use Rattle.std.specs.Prelude.{◌≡◌, ◌++◌, IfOk, OnOk};
ghost use Rattle.gp_json.specs.Spelling.{quoted_utf8};
ghost use Rattle.gp_check.specs.Object as spec;

use crate::found::Found;
use crate::keys::unknown_key_text;
use crate::text::wanted_text;
use gp_json::quoted_text;
use gp_script::{Mistake, ScriptFault, Spot, SyntaxMistake, TableMistake, TablePlace};
use itoa::Buffer;
use std::alloc::{AllocError, Global};

/// The fields of an object.
#[derive(Drop)]
struct Fields {
    alloc: Global,
    octets: Vec<u8>,
}

impl Fields {
    /// Appends the name of a field.
    fn name(&mut self, name: &str) -> Result<(), AllocError>
        ensures { OnOk result (self.new.octets.items ≡ self.old.octets.items ++ spec.field_name name.now) }
    {
        self.octets.extend_from_slice(b",\"")?;
        self.octets.extend_from_slice(name.as_bytes())?;
        self.octets.extend_from_slice(b"\":")
    }

    /// Appends a field that is a text.
    fn text(&mut self, name: &str, text: &str) -> Result<(), AllocError>
        ensures { OnOk result (self.new.octets.items ≡ self.old.octets.items ++ spec.text_field name.now text.now) }
    {
        let quoted = quoted_text(self.alloc, text)?;
        self.name(name)?;
        self.octets.extend_from_slice(quoted.as_slice())
    }

    /// Appends a field that is a number.
    fn number(&mut self, name: &str, number: usize) -> Result<(), AllocError>
        ensures { OnOk result (self.new.octets.items ≡ self.old.octets.items ++ spec.number_field name.now number) }
    {
        let mut digits = Buffer::new();
        self.name(name)?;
        self.octets
            .extend_from_slice(digits.format(number).as_bytes())
    }

    /// Appends a number that may be left out.
    fn number_if(&mut self, name: &str, number: Option<usize>) -> Result<(), AllocError>
        ensures { OnOk result (self.new.octets.items ≡ self.old.octets.items ++ spec.number_field_if name.now number) }
    {
        match number {
            None => Ok(()),
            Some(number) => self.number(name, number),
        }
    }

    /// Appends which table it is.
    fn table(&mut self, table: TablePlace) -> Result<(), AllocError>
        ensures { OnOk result (self.new.octets.items ≡ self.old.octets.items ++ spec.table_fields table) }
    {
        self.text("table", table_word(table))?;
        self.number_if("index", table_index(table))
    }

    /// Appends a spot of a table.
    fn spot(&mut self, spot: Spot) -> Result<(), AllocError>
        ensures { OnOk result (self.new.octets.items ≡ self.old.octets.items ++ spec.spot_fields spot) }
    {
        match spot {
            Spot::Table => Ok(()),
            Spot::Key(key) => self.text("key", key.name()),
            Spot::Item(key, place) => {
                self.text("key", key.name())?;
                self.number("item", place)
            }
        }
    }

    /// Appends the kind of a fault, and what is wanted or wrong.
    fn kind(&mut self, fault: ScriptFault, wanted: &str) -> Result<(), AllocError>
        ensures { OnOk result (self.new.octets.items ≡ self.old.octets.items ++ spec.kind_fields fault wanted.now) }
    {
        self.text("kind", fault_word(fault))?;
        self.text("wanted", wanted)
    }

    /// Appends where in a table it is wrong.
    fn spot_of(&mut self, mistake: &TableMistake) -> Result<(), AllocError>
        ensures { OnOk result (self.new.octets.items ≡ self.old.octets.items ++ spec.spot_of_mistake mistake.now) }
    {
        match mistake {
            TableMistake::UnknownKey(key) => self.text("key", key.as_str()),
            TableMistake::Unmet(spot, _) => self.spot(*spot),
        }
    }

    /// Appends what is wrong there.
    fn kind_of(&mut self, table: TablePlace, mistake: &TableMistake) -> Result<(), AllocError>
        ensures { OnOk result (self.new.octets.items
            ≡ self.old.octets.items ++ spec.kind_of_mistake table mistake.now) }
    {
        match mistake {
            TableMistake::UnknownKey(key) => {
                let told = unknown_key_text(self.alloc, table, key.as_str())?;
                self.kind(ScriptFault::Shape, told.as_str())
            }
            TableMistake::Unmet(spot, want) => {
                let told = wanted_text(self.alloc, *spot, *want)?;
                self.kind(want.fault(), told.as_str())
            }
        }
    }

    /// Appends what is wrong in a table, and in which line.
    fn table_mistake(
        &mut self,
        table: TablePlace,
        mistake: &TableMistake,
        line: Option<usize>,
    ) -> Result<(), AllocError>
        ensures { OnOk result
            (self.new.octets.items ≡ self.old.octets.items ++ spec.table_mistake_fields table mistake.now line) }
    {
        self.table(table)?;
        self.spot_of(mistake)?;
        self.number_if("line", line)?;
        self.kind_of(table, mistake)
    }

    /// Appends why a text is no TOML, and where.
    fn syntax(&mut self, syntax: &SyntaxMistake) -> Result<(), AllocError>
        ensures { OnOk result (self.new.octets.items ≡ self.old.octets.items ++ spec.syntax_fields syntax.now) }
    {
        self.number("line", syntax.line)?;
        self.number("column", syntax.column)?;
        self.kind(ScriptFault::Syntax, syntax.message.as_str())
    }

    /// Appends what is wrong with a script.
    fn mistake(&mut self, mistake: &Mistake, line: Option<usize>) -> Result<(), AllocError>
        ensures { OnOk result (self.new.octets.items ≡ self.old.octets.items ++ spec.mistake_fields mistake.now line) }
    {
        match mistake {
            Mistake::NoText => self.kind(ScriptFault::Syntax, "not UTF-8"),
            Mistake::NoToml(syntax) => self.syntax(syntax),
            Mistake::Inside(table, mistake) => self.table_mistake(*table, mistake, line),
        }
    }

    /// Appends how many ports, units and events a script has.
    fn counts(&mut self, ports: usize, units: usize, events: usize) -> Result<(), AllocError>
        ensures { OnOk result (self.new.octets.items ≡ self.old.octets.items ++ spec.count_fields ports units events) }
    {
        self.number("ports", ports)?;
        self.number("units", units)?;
        self.number("events", events)
    }

    /// Appends that a file is right.
    fn right(&mut self) -> Result<(), AllocError>
        ensures { OnOk result (self.new.octets.items ≡ self.old.octets.items ++ spec.is_right) }
    {
        self.octets.extend_from_slice(b",\"ok\":true")
    }

    /// Appends that a file is wrong.
    fn wrong(&mut self) -> Result<(), AllocError>
        ensures { OnOk result (self.new.octets.items ≡ self.old.octets.items ++ spec.is_wrong) }
    {
        self.octets.extend_from_slice(b",\"ok\":false")
    }

    /// Appends why a file was not looked at.
    fn why(&mut self, why: &str) -> Result<(), AllocError>
        ensures { OnOk result (self.new.octets.items ≡ self.old.octets.items ++ spec.why_fields why.now) }
    {
        self.wrong()?;
        self.text("why", why)
    }

    /// Appends what was found in a file.
    fn found(&mut self, found: &Found) -> Result<(), AllocError>
        ensures { OnOk result (self.new.octets.items ≡ self.old.octets.items ++ spec.found_fields found.now) }
    {
        match found {
            Found::Script {
                ports,
                units,
                events,
            } => {
                self.right()?;
                self.counts(*ports, *units, *events)
            }
            Found::Unread => self.why("can't be read"),
            Found::TooLong => self.why("more than 1048576 bytes"),
            Found::Wrong { mistake, line } => {
                self.wrong()?;
                self.mistake(mistake, *line)
            }
        }
    }
}

/// Gives the word of a table.
fn table_word(table: TablePlace) -> &'static str
    ensures { result.now ≡ spec.table_word table }
{
    match table {
        TablePlace::Top => "top",
        TablePlace::Port(_) => "port",
        TablePlace::Unit(_) => "unit",
        TablePlace::Lose(_) => "lose",
        TablePlace::Event(_) => "event",
    }
}

/// Gives the place of a table in its list.
fn table_index(table: TablePlace) -> Option<usize>
    ensures { result ≡ spec.table_index table }
{
    match table {
        TablePlace::Top => None,
        TablePlace::Port(place)
        | TablePlace::Unit(place)
        | TablePlace::Lose(place)
        | TablePlace::Event(place) => Some(place),
    }
}

/// Gives the kind of a fault, by its name.
fn fault_word(fault: ScriptFault) -> &'static str
    ensures { result.now ≡ spec.fault_word fault }
{
    match fault {
        ScriptFault::Syntax => "syntax",
        ScriptFault::Shape => "shape",
        ScriptFault::Range => "range",
        ScriptFault::Serial => "serial",
        ScriptFault::Hex => "hex",
        ScriptFault::Duplicate => "duplicate",
    }
}

/// Begins the object of a file with this name.
fn begun(alloc: Global, name: &str) -> Result<Fields, AllocError>
    ensures { IfOk result (λ fields. fields.octets.items ≡ spec.file_begun name.now) }
{
    let quoted = quoted_text(alloc, name)?;
    let mut octets = Vec::from_slice(alloc, b"{\"file\":")?;
    octets.extend_from_slice(quoted.as_slice())?;
    Ok(Fields { alloc, octets })
}

/// Gives what is told of a file with this name as a JSON object, with a line feed behind it. Fails where memory was
/// refused.
///
/// Its fields are `file`, `ok`, and of a script `ports`, `units` and `events`; of what is none `table`, `index`, `key`,
/// `item`, `line`, `column`, `kind` and `wanted`, as many of them as there are; of what was not looked at `why`.
pub fn found_object(alloc: Global, name: &str, found: &Found) -> Result<Vec<u8>, AllocError>
    ensures { IfOk result (λ object. object.items ≡ spec.object_of name.now found.now) }
{
    let mut fields = begun(alloc, name)?;
    fields.found(found)?;
    fields.octets.extend_from_slice(b"}\n")?;
    Ok(fields.octets)
}

/// Gives the same of a file that was not looked at, for this cause.
pub fn unread_object(alloc: Global, name: &str, why: &str) -> Result<Vec<u8>, AllocError>
    ensures { IfOk result (λ object. object.items ≡ spec.unread_object name.now why.now) }
{
    let mut fields = begun(alloc, name)?;
    fields.why(why)?;
    fields.octets.extend_from_slice(b"}\n")?;
    Ok(fields.octets)
}

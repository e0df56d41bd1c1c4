//! A parser of value change dumps.
use std::alloc::{AllocError, Global};
use std::collections::BTreeMap;

/// A variable that is declared.
#[derive(Clone, Copy)]
pub(crate) struct Variable<'a> {
    pub(crate) port: &'a str,
    /// The scope within that of the port; empty for a variable of the port.
    pub(crate) unit: &'a str,
    pub(crate) name: &'a str,
    width: usize,
}

/// A value that a variable gets.
#[derive(Clone, Copy)]
pub(crate) struct Setting<'a> {
    pub(crate) time: u64,
    pub(crate) variable: Variable<'a>,
    /// Its binary digits, or `z`.
    pub(crate) value: &'a str,
}

/// A dump.
#[derive(Drop)]
pub(crate) struct Parsed<'a> {
    pub(crate) variables: Vec<Variable<'a>>,
    pub(crate) settings: Vec<Setting<'a>>,
    places: BTreeMap<&'a str, usize>,
    port: &'a str,
    unit: &'a str,
    is_open: bool,
    time: Option<u64>,
}

/// Which settings are counted.
#[derive(Clone, Copy)]
pub(crate) enum Wanted<'a> {
    Each,
    /// All but those to `z`.
    Something,
    /// Those to this number.
    Number(&'a str),
}

impl Wanted<'_> {
    fn holds(self, value: &str) -> bool {
        match self {
            Wanted::Each => true,
            Wanted::Something => value != "z",
            Wanted::Number(wanted) => value == wanted,
        }
    }
}

/// Tells whether a value is one of a variable of this width.
fn is_of_width(value: &str, width: usize) -> bool {
    value == "z"
        || (value.len() == width
            && value
                .as_bytes()
                .iter()
                .all(|digit| matches!(*digit, b'0' | b'1')))
}

impl<'a> Parsed<'a> {
    /// Nothing was read.
    fn begin(alloc: Global) -> Parsed<'a> {
        Parsed {
            variables: Vec::new(alloc),
            settings: Vec::new(alloc),
            places: BTreeMap::new(alloc),
            port: "",
            unit: "",
            is_open: true,
            time: None,
        }
    }

    /// Opens the scope of a port. Tells whether it has the name of one.
    fn open_port(&mut self, name: &'a str) -> bool {
        let is_port = name.starts_with("port");
        if is_port {
            self.port = name;
        }
        is_port
    }

    /// Opens the scope of a unit. Tells whether it has the name of one.
    fn open_unit(&mut self, name: &'a str) -> bool {
        let is_unit = name.starts_with("unit");
        if is_unit {
            self.unit = name;
        }
        is_unit
    }

    /// Opens a scope. Tells whether it may stand there.
    fn open_scope(&mut self, name: &'a str) -> bool {
        if self.port.is_empty() {
            self.open_port(name)
        } else if self.unit.is_empty() {
            self.open_unit(name)
        } else {
            false
        }
    }

    /// Closes a scope. Tells whether one is open.
    fn close_scope(&mut self) -> bool {
        if !self.unit.is_empty() {
            self.unit = "";
            true
        } else if !self.port.is_empty() {
            self.port = "";
            true
        } else {
            false
        }
    }

    /// Declares a variable. Tells whether it may stand there, and its identifier is new.
    fn declare(&mut self, width: &'a str, id: &'a str, name: &'a str) -> Result<bool, AllocError> {
        let Ok(width) = width.parse::<usize>() else {
            return Ok(false);
        };
        if self.port.is_empty() || self.places.contains_key(&id) {
            return Ok(false);
        }
        self.places.insert(id, self.variables.len())?;
        self.variables.push(Variable {
            port: self.port,
            unit: self.unit,
            name,
            width,
        })?;
        Ok(true)
    }

    /// Reads a line of the declarations. Tells whether it is one.
    fn declaration(&mut self, line: &'a str) -> Result<bool, AllocError> {
        if line == "$upscope $end" {
            return Ok(self.close_scope());
        }
        if line == "$enddefinitions $end" {
            self.is_open = false;
            return Ok(self.port.is_empty());
        }
        if line == "$timescale 1 ns $end"
            || (line.starts_with("$comment ") && line.ends_with(" $end"))
        {
            return Ok(true);
        }
        let mut words = line.split(' ');
        match (words.next(), words.next()) {
            (Some("$scope"), Some("module")) => match (words.next(), words.next(), words.next()) {
                (Some(name), Some("$end"), None) => Ok(self.open_scope(name)),
                _ => Ok(false),
            },
            (Some("$var"), Some("wire" | "reg")) => {
                let (width, id, name) = (words.next(), words.next(), words.next());
                match (width, id, name, words.next(), words.next()) {
                    (Some(width), Some(id), Some(name), Some("$end"), None) => {
                        self.declare(width, id, name)
                    }
                    _ => Ok(false),
                }
            }
            _ => Ok(false),
        }
    }

    /// Notes a value of a variable. Tells whether it is declared, and the value has its width.
    fn set(&mut self, id: &'a str, value: &'a str) -> Result<bool, AllocError> {
        let Some(place) = self.places.get(&id).copied() else {
            return Ok(false);
        };
        match (self.variables.get(place).copied(), self.time) {
            (Some(variable), Some(time)) if is_of_width(value, variable.width) => {
                self.settings.push(Setting {
                    time,
                    variable,
                    value,
                })?;
                Ok(true)
            }
            _ => Ok(false),
        }
    }

    /// Notes a time. Tells whether it is behind the last one.
    fn come_to(&mut self, time: &str) -> bool {
        match (time.parse::<u64>(), self.time) {
            (Ok(time), Some(last)) if time <= last => false,
            (Ok(time), _) => {
                self.time = Some(time);
                true
            }
            (Err(_), _) => false,
        }
    }

    /// Reads a line behind the declarations. Tells whether it is one.
    fn change(&mut self, line: &'a str) -> Result<bool, AllocError> {
        if let Some(time) = line.strip_prefix('#') {
            return Ok(self.come_to(time));
        }
        if let Some(rest) = line.strip_prefix('b') {
            return match rest.split_once(' ') {
                Some((value, id)) => self.set(id, value),
                None => Ok(false),
            };
        }
        if let Some(id) = line.strip_prefix('0') {
            return self.set(id, "0");
        }
        match line.strip_prefix('1') {
            Some(id) => self.set(id, "1"),
            None => Ok(false),
        }
    }

    /// How many values a variable of this name gets, of ports where the unit is empty, of units where it is "unit".
    pub(crate) fn count(&self, unit: &str, name: &str, wanted: Wanted<'_>) -> u64 {
        let mut count = 0u64;
        for setting in self.settings.as_slice() {
            let variable = setting.variable;
            let is_of = variable.unit.is_empty() == unit.is_empty() && variable.name == name;
            if is_of && wanted.holds(setting.value) {
                count = count.saturating_add(1);
            }
        }
        count
    }

    /// The last value that a variable of this name gets.
    pub(crate) fn last(&self, name: &str) -> Option<Setting<'a>> {
        let mut settings = self.settings.as_slice().iter().rev();
        settings
            .find(|setting| setting.variable.name == name)
            .copied()
    }

    /// Reads a line. Tells whether it is one.
    fn line(&mut self, line: &'a str) -> Result<bool, AllocError> {
        if self.is_open {
            self.declaration(line)
        } else {
            self.change(line)
        }
    }

    /// Reads lines. Tells whether they are the lines of a whole dump.
    fn lines(&mut self, lines: &'a str) -> Result<bool, AllocError> {
        for line in lines.split('\n') {
            if !self.line(line)? {
                return Ok(false);
            }
        }
        Ok(!self.is_open)
    }
}

/// Reads a whole dump. None where it is none.
pub(crate) fn parse<'a>(alloc: Global, text: &'a str) -> Result<Option<Parsed<'a>>, AllocError> {
    let Some(lines) = text.strip_suffix('\n') else {
        return Ok(None);
    };
    let mut parsed = Parsed::begin(alloc);
    match parsed.lines(lines)? {
        true => Ok(Some(parsed)),
        false => Ok(None),
    }
}

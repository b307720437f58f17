// Lines that are cut ahead, so that the names in them are looked up side by side.
ghost use Rattle.std.specs.Prelude.{◌≡◌, ◌∷◌, ◌++◌, [], IfOk, OnOk};
ghost use Rattle.dl_triples.specs.Progress.{AreCut};

use crate::line::{Form, Triple, form_of};
use crate::lines::first_line;
use dl_names::{NameSet, is_free};
use dl_terms::NoMemory;
use std::alloc::Global;

/// How many lines are cut ahead.
const BLOCK: usize = 128;

/// Places to try for the names of a triple, which may be any numbers.
#[derive(Clone, Copy)]
pub(crate) struct Places {
    pub(crate) subject: u32,
    pub(crate) predicate: u32,
    pub(crate) object: u32,
}

impl Places {
    /// Any places.
    pub(crate) fn any() -> Places {
        Places {
            subject: 0,
            predicate: 0,
            object: 0,
        }
    }
}

/// Lines that were cut ahead.
#[derive(Drop)]
pub(crate) struct Ahead<'a> {
    /// The forms of the lines.
    pub(crate) forms: Vec<Form<'a>>,
    /// For each line where its texts begin among all.
    firsts: Vec<usize>,
    /// Texts of triples: of each the subject, the object and the predicate, unless that is reserved.
    texts: Vec<&'a str>,
    /// The place of each text, as it was when the lines were cut.
    places: Vec<u32>,
}

impl<'a> Ahead<'a> {
    /// No lines, and room for all that are cut at a time.
    pub(crate) fn new(alloc: Global) -> Result<Ahead<'a>, NoMemory> {
        Ok(Ahead {
            forms: Vec::with_capacity(alloc, BLOCK)?,
            firsts: Vec::with_capacity(alloc, BLOCK)?,
            texts: Vec::with_capacity(alloc, 3 * BLOCK)?,
            places: Vec::with_capacity(alloc, 3 * BLOCK)?,
        })
    }

    /// Cuts lines at the front in place of those before, looks their names up, and gives what stands behind them. A
    /// line that the end of the bytes ends isn't cut.
    pub(crate) fn look(
        &mut self,
        bytes: &'a [u8],
        names: &mut NameSet,
    ) -> Result<&'a [u8], NoMemory>
        ensures ok { IfOk result (λ rest. AreCut bytes.now self.new.forms.items rest.now) }
        ensures names { names.new ≡ names.old }
    {
        let rest = self.cut(bytes)?;
        names.places(&self.texts, &mut self.places)?;
        Ok(rest)
    }

    /// Cuts lines at the front, and gives what stands behind them.
    fn cut(&mut self, bytes: &'a [u8]) -> Result<&'a [u8], NoMemory>
        ensures { IfOk result (λ rest. AreCut bytes.now self.new.forms.items rest.now) }
    {
        self.forms.clear();
        self.firsts.clear();
        self.texts.clear();
        let mut rest = bytes;
        for _ in 0..BLOCK {
            let (line, behind) = first_line(rest);
            let Some(behind) = behind else {
                return Ok(rest);
            };
            self.add(form_of(line))?;
            rest = behind;
        }
        Ok(rest)
    }

    /// Adds a line of this form.
    fn add(&mut self, form: Form<'a>) -> Result<(), NoMemory>
        ensures { OnOk result (self.new.forms.items ≡ self.old.forms.items ++ form.entry ∷ []) }
    {
        self.firsts.push(self.texts.len())?;
        if let Form::Triple(triple) = form {
            add_texts(triple, &mut self.texts)?;
        }
        self.forms.push(form)?;
        Ok(())
    }

    /// Places to try for the names of the line at an index.
    pub(crate) fn places(&self, index: usize) -> Places {
        let first = self.firsts.get(index).copied().unwrap_or(0);
        Places {
            subject: self.place(first),
            object: self.place(first.saturating_add(1)),
            predicate: self.place(first.saturating_add(2)),
        }
    }

    /// The place at an index.
    fn place(&self, index: usize) -> u32 {
        self.places.get(index).copied().unwrap_or(0)
    }
}

/// Adds the texts of a triple that may be names.
fn add_texts<'a>(triple: Triple<'a>, texts: &mut Vec<&'a str>) -> Result<(), NoMemory> {
    let Some(object) = triple.object else {
        return Ok(());
    };
    texts.push(triple.subject.text)?;
    texts.push(object.text)?;
    if is_free(triple.predicate.text) {
        texts.push(triple.predicate.text)?;
    }
    Ok(())
}

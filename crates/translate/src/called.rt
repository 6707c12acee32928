//! The procedures of the library that a program calls.

use indexmap::IndexMap;
use std::alloc::{AllocError, Global};
use target_code::{Code, Instr, Name, Proc};

/// A library, with those of its procedures that are called, and those of them whose own calls were not looked at yet.
#[derive(Drop)]
pub(crate) struct Called<'a> {
    numbers: IndexMap<&'a [u8], usize>,
    wanted: Vec<bool>,
    open: Vec<usize>,
}

impl<'a> Called<'a> {
    /// None of the library's procedures is called.
    pub(crate) fn new(alloc: Global, library: &'a [Proc]) -> Result<Called<'a>, AllocError> {
        let mut numbers = IndexMap::new(alloc);
        let mut wanted = Vec::new(alloc);
        'each: for (number, proc) in library.iter().enumerate() {
            numbers
                .insert(proc.name.bytes(), number)
                .or(Err(AllocError))?;
            wanted.push(false)?;
        }
        Ok(Called {
            numbers,
            wanted,
            open: Vec::new(alloc),
        })
    }

    /// A name is called. A procedure is opened where it is called first, and never again.
    fn call(&mut self, name: &Name) -> Result<(), AllocError> {
        if let Some(number) = self.numbers.get(name.bytes()).copied() {
            if let Some(wanted) = self.wanted.get_mut(number) {
                if !*wanted {
                    *wanted = true;
                    self.open.push(number)?;
                }
            }
        }
        Ok(())
    }

    /// What code calls, inner code too.
    #[cycle(calls)]
    fn code(&mut self, code: &Code) -> Result<(), AllocError> {
        'each: for instr in code.list.as_slice() {
            self.instr(instr)?;
        }
        Ok(())
    }

    #[cycle(calls)]
    fn instr(&mut self, instr: &Instr) -> Result<(), AllocError> {
        match instr {
            Instr::If { yes, no, .. } => {
                self.code(yes)?;
                self.code(no)
            }
            Instr::While { cond, body, .. } => {
                self.code(cond)?;
                self.code(body)
            }
            Instr::Call { proc, .. } => self.call(proc),
            _ => Ok(()),
        }
    }

    /// What procedures call.
    pub(crate) fn procs(&mut self, procs: &[Proc]) -> Result<(), AllocError> {
        'each: for proc in procs {
            self.code(&proc.code)?;
        }
        Ok(())
    }

    /// What those of the library call that are called. As each is opened once, there are no more rounds than procedures.
    pub(crate) fn close(&mut self, library: &[Proc]) -> Result<(), AllocError> {
        'each: for _ in 0..library.len() {
            match self.open.pop() {
                Some(number) => {
                    if let Some(proc) = library.get(number) {
                        self.code(&proc.code)?;
                    }
                }
                None => return Ok(()),
            }
        }
        Ok(())
    }

    /// Which are called.
    pub(crate) fn wanted(self) -> Vec<bool> {
        self.wanted
    }
}

//! Pages for browsers, each in one file: a template with data in it.
use sourcemap_files::{
    Asked, folder_of, is_file, read_text, refuse_overwriting, usage, write_text,
};
use sourcemap_run::{DATA_MARK, fill_template};
use sourcemap_words::{Outcome, failure_of};
use std::alloc::{AllocError, Global};
use std::env;

/// Where the template of a kind of pages is.
#[derive(Clone, Copy)]
pub(crate) struct Template {
    /// The environment variable that names it.
    pub(crate) variable: &'static str,
    /// Its path beside the program, from the folder that the program is in.
    pub(crate) beside: &'static str,
}

impl Template {
    /// The path beside the program; None if the system does not report where the program is.
    fn beside_program(self, rt: &HostRuntime) -> Result<Option<String>, AllocError> {
        let Ok(program) = env::current_exe(rt) else {
            return Ok(None);
        };
        let folder = folder_of(program.as_path().as_str());
        let beside = self.beside;
        Ok(Some(format!(in rt.alloc(); "{folder}{beside}")?))
    }

    /// The message where it is missing.
    fn lack(self, alloc: Global, how: &str) -> Result<String, AllocError> {
        let variable = self.variable;
        format!(in alloc; "the template of pages is not {how}: name it by --template or {variable}")
    }

    /// Its path: of `--template`, else of the environment, else beside the program.
    fn path(self, asked: &Asked<'_, '_>) -> Outcome<String> {
        let alloc = asked.alloc();
        if let Some(path) = asked.matches.get_str("template") {
            return Ok(String::from_str(alloc, path)?);
        }
        if let Ok(path) = env::var(asked.rt, self.variable) {
            return Ok(path);
        }
        match self.beside_program(asked.rt)? {
            Some(path) if is_file(asked.rt, path.as_str()) => Ok(path),
            Some(path) => {
                let text = self.lack(alloc, "there")?;
                Err(failure_of(alloc, path.as_str(), text.as_str()))
            }
            None => Err(usage(asked.rt, self.lack(alloc, "found")?.as_str())),
        }
    }

    /// Writes the page with this content to the file of `-o`, which has to be another one than the template. Returns how many bytes it has.
    pub(crate) fn write(self, asked: &Asked<'_, '_>, content: &str) -> Outcome<usize> {
        let path = self.path(asked)?;
        let output = asked.word("output");
        if output != "-" {
            refuse_overwriting(asked, path.as_str(), output)?;
        }
        let page = page_of(asked, path.as_str(), content)?;
        write_text(asked.rt, output, page.as_str())?;
        Ok(page.len())
    }
}

/// The page of a template in a file, with this content.
fn page_of(asked: &Asked<'_, '_>, path: &str, content: &str) -> Outcome<String> {
    let alloc = asked.alloc();
    let template = read_text(asked.rt, path)?;
    match fill_template(alloc, template.as_str(), content)? {
        Some(page) => Ok(page),
        None => {
            let text = format!(in alloc; "is no template of pages: it has no mark {DATA_MARK}")?;
            Err(failure_of(alloc, path, text.as_str()))
        }
    }
}

/// Refuses to print objects where the page is printed.
pub(crate) fn refuse_two_texts(asked: &Asked<'_, '_>) -> Outcome<()> {
    if asked.has("json") && asked.word("output") == "-" {
        return Err(usage(
            asked.rt,
            "standard output has the page: name a file by -o, or leave out --json",
        ));
    }
    Ok(())
}

/// Appends objects, each of which is a line, as a list.
pub(crate) fn push_list(objects: &str, out: &mut String) -> Result<(), AllocError> {
    out.push('[')?;
    for (i, object) in objects.lines().enumerate() {
        if i > 0 {
            out.push(',')?;
        }
        out.push_str(object)?;
    }
    out.push(']')?;
    Ok(())
}

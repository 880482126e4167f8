use std::{fs, io};

/// The names of the files of cases in a folder, in the order of their octets.
pub fn case_files(rt: &HostRuntime, folder: &str) -> io::Result<Vec<String>> {
    let mut names = Vec::new(rt.alloc());
    for entry in fs::read_dir(rt, folder)? {
        let entry = entry?;
        let name = entry.file_name();
        if name.ends_with(".case") {
            names.push(name.to_string(rt.alloc())?)?;
        }
    }
    names.sort()?;
    Ok(names)
}

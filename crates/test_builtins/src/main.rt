// Writes the four built-in lists, one after the other: they are held to the files of examples/.
#![tactic(auto)]

// Where writing fails the status is 0 all the same: what is written shows it.
fn main(rt: HostRuntime) {
    let _ = rt.write_all(&list_builtin::praxis());
    let _ = rt.write_all(&list_builtin::ok10());
    let _ = rt.write_all(&list_builtin::mfh30());
    let _ = rt.write_all(&list_builtin::bauds());
}

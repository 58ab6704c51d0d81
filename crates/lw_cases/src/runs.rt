//! Cases on what scripts leave behind.

use lw_ast::read_script;
use lw_eval::run_script;
use lw_io::MemorySink;
use lw_pool::Pool;
use lw_value::Env;
use std::alloc::{AllocError, Global};

/// How many formulas a pool has that was empty before the text's script was carried out.
pub fn left_line(alloc: Global, text: &[u8]) -> Result<String, AllocError> {
    let Ok(script) = read_script(alloc, text) else {
        return String::from_str(alloc, "no script");
    };
    let mut pool = Pool::new(alloc);
    let mut env = Env::new(alloc);
    let mut sink = MemorySink::with_room(alloc, 1_000)?;
    match run_script(alloc, &script, &mut pool, &mut env, &mut sink) {
        Ok(()) => format!(in alloc; "{}", pool.count()),
        Err(_) => String::from_str(alloc, "stopped"),
    }
}

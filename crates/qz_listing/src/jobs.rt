//! Lines of jobs.
ghost use Rattle.qz_listing.specs.Lines as spec;

use crate::lines::Line;
use qz_report::push_job;
use qz_types::JobRow;
use std::alloc::AllocError;

impl Line for JobRow {
    ghost line = { λ j. spec.job_line j };

    fn push_line(&self, text: &mut String) -> Result<(), AllocError> {
        push_job(text, self)?;
        text.push('\n')
    }
}

// The statement of a closed day.
use crate::payment::Payment;
use pages::page::Page;

mod pages_of;

// A page for each block, which the caller lends. Its loan and that of the slice below it are two lifetimes: under one
// the page would stay lent for as long as the slice, and its caller could not read it after a close.
#[derive(Drop)]
pub struct Statement<'p, 'q, 'h, 'l> {
    pub heavy: &'p mut Page<'h, Payment>,
    pub light: &'q mut Page<'l, Payment>,
}

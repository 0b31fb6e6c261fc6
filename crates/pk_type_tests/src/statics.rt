// Static objects of functions: where they stand among the objects of a unit, and what each begins with. Worked by hand.

use crate::typing::typed;
use pk_typed::{FileObject, Start};
use std::fmt::Write;
use std::test::Fail;

const TEXT: &str =
    "int a=1;int f(void){static int n=7,t[3]={1,2};return n;}int b;int main(void){{static char c=300;}static int z;return z;}int d[2];";

const OBJECTS: &str = "a=1 b=0 d=[2] n=7 t=[3]1,2, c=44 z=0 ";

pub(crate) fn tell(object: &FileObject, told: &mut String) -> Result<(), Fail> {
    match &object.start {
        Start::Scalar(number) => write!(told, "{}={number} ", object.name)?,
        Start::Array { length, items } => {
            write!(told, "{}=[{length}]", object.name)?;
            for item in items {
                write!(told, "{item},")?;
            }
            write!(told, " ")?;
        }
    }
    Ok(())
}

#[test]
fn statics(rt: HostRuntime) -> Result<(), Fail> {
    let alloc = rt.alloc();
    let unit = typed(alloc, TEXT.as_bytes())?.ok();
    let mut told = String::new(alloc);
    if let Some(unit) = &unit {
        for object in &unit.objects {
            tell(object, &mut told)?;
        }
    }
    assert!(rt; told.as_str() == OBJECTS, "{told}");
    Ok(())
}

//! Each public call once. What a list holds is known to contracts alone, so places are compared.
ghost use Rattle.std.specs.Prelude.{◌≡◌, ◌≤◌, ◌∷◌, [], IfOk, length};
ghost use Rattle.ls_event.specs.declared.limits.TheConstants.{MOST_FIELDS};

use ls_chron::Chron;
use ls_event::{Entry, ItemDef, Kind};
use ls_register::{Blank, Book, House, Made, add_item, one_table};
use ls_value::{Names, NoMemory, Text};
use std::alloc::Global;
use std::marker::Brand;
use std::test::Fail;

/// An item of one field.
fn one_field(alloc: Global) -> Result<ItemDef, Fail>
    ensures { IfOk result (λ d. length d.fields ≡ 1) }
{
    let name = Text::from_str(alloc, "quote")?;
    let mut fields = Vec::new(alloc);
    fields.push(Text::from_str(alloc, "last")?)?;
    Ok(ItemDef {
        name,
        kind: Kind::Merge,
        fields: Names::of(fields),
    })
}

/// Whether the place of an item that was added is that of a second token of it. The register's book gives a view.
fn is_one_place<N: House>(alloc: Global, blank: Blank, def: &ItemDef) -> Result<bool, NoMemory>
    requires register { blank.register ≡ N.deed.register }
    requires config { N.deed.config ≡ def.now ∷ [] }
    requires fields { length def.now.fields ≤ MOST_FIELDS }
{
    let Blank {
        register,
        mut writer,
    } = blank;
    let (chron, mut entries) = Chron::<Entry>::start(alloc)?;
    let sign = chron.note(&mut entries).sign();
    let Ok(mut place) = add_item::<N>(&register, &mut writer, 0, def, sign) else {
        return Err(NoMemory);
    };
    let mut again = place.again(&register);
    let mut book = Book::<N, u64>::new(alloc, writer, 1);
    let _view = book.view(&register);
    Ok(place.is_that(&register, &mut again))
}

#[test]
fn an_item_has_one_place(rt: HostRuntime) -> Result<(), Fail> {
    let def = one_field(rt.alloc())?;
    let blank = Blank::new(rt.alloc())?;
    assert!(rt; is_one_place::<Brand>(rt.alloc(), blank, &def)?);
    Ok(())
}

/// Whether each of two places is one with itself and not with the other.
fn are_told_apart(alloc: Global) -> Result<bool, NoMemory> {
    let (register, mut writer) = Chron::<Made>::start(alloc)?;
    let gone = Made::Gone { session: 1 };
    let Ok(_) = register.append(&mut writer, &gone) else {
        return Ok(false);
    };
    let mut early = register.note(&mut writer);
    let Ok(_) = register.append(&mut writer, &gone) else {
        return Ok(false);
    };
    let mut late = register.note(&mut writer);
    let is_other = one_table(&register, &mut early, 0, &mut late, 1);
    let is_first = one_table(&register, &mut late, 0, &mut early, 0);
    let is_second = one_table(&register, &mut early, 1, &mut late, 1);
    Ok(!is_other && is_first && is_second)
}

#[test]
fn places_are_told_apart(rt: HostRuntime) -> Result<(), Fail> {
    assert!(rt; are_told_apart(rt.alloc())?);
    Ok(())
}
